ghost use Rattle.std.specs.Prelude.{◌≡◌, ℕ, List, MatchResult};
ghost use Rattle.journal.specs.Contents.{usable};
ghost use Rattle.printed.specs.Printed.{YearPrinted, LogPrinted, Wrote, TooShort};

use crate::text::{YearText, year_text};
use book_log::{offer_frames, year_and_frames};
use calendar::Year;
use factor::{Pair, PlantList, Printed};
use journal::JournalEntry;
use statement::BufferShort;
use year::open;

// So many bytes hold whatever is printed of a log.
pub const LONGEST: usize = 576;

// The year after its frames. There are no plant factors: what is measured is looked for in an empty list.
fn booked(year: Year, frames: &[u8], memory: &mut [JournalEntry]) -> YearText
    ensures printed { YearPrinted year.number (usable memory.old) frames.now result.items }
    ensures alone { (other : List ℕ) → YearPrinted year.number (usable memory.old) frames.now other → other ≡ result.items }
{
    let mut book = open(year, memory);
    let mut pair = Pair::new(PlantList::new(&mut []), Printed);
    let counts = offer_frames(&mut book, &mut pair, frames);
    year_text(&book, counts)
}

// What is printed of a log: its year, or three zeros where it begins with no lawful one.
fn log_text(log: &[u8], memory: &mut [JournalEntry]) -> YearText
    ensures printed { LogPrinted (usable memory.old) log.now result.items }
    ensures alone { (other : List ℕ) → LogPrinted (usable memory.old) log.now other → other ≡ result.items }
{
    let Some((year, frames)) = year_and_frames(log) else {
        let mut text = YearText::new();
        text.try_extend_from_slice(b"0 0 0\n").unwrap();
        return text;
    };
    booked(year, frames, memory)
}

// Books a log over memory for its journal, and writes what is printed of it into the front of a buffer. A buffer that could be too
// short is refused before a frame is read, and keeps every byte, as the memory does.
pub fn print_log(
    log: &[u8],
    memory: &mut [JournalEntry],
    out: &mut [u8],
) -> Result<usize, BufferShort>
    ensures { MatchResult result (λ n. Wrote (usable memory.old) log.now out.old n out.new) (λ e. TooShort e.needed out.old out.new memory.old memory.new) }
{
    if out.len() < LONGEST {
        return Err(BufferShort { needed: LONGEST });
    }
    let text = log_text(log, memory);
    let length = text.len();
    out[..length].copy_from_slice(text.as_slice());
    Ok(length)
}
