ghost use Rattle.std.specs.Prelude.{◌≡◌, IfOk, MatchResult, if◌then◌else◌, nat_lt};
ghost use Rattle.desk.specs.Done.{byte_of, NoCall};

use crate::failed::Failed;
use calendar::{Day, Year};
use commands::{Command, Stated};
use record::{RawRecord, read, write};
use refusal::Refusal;
use shown::{Bits, Hex, OrDash, Whole};
use std::alloc::Global;

// Longer than any frame.
const ROOM: usize = 100;

// A number that is none of a smaller type is none that a call knows: 0 is no year, day, kind, month or line.
pub fn short(number: u32) -> u16
    ensures { result ≡ (if nat_lt number 65536 then number else 0) }
{
    u16::try_from(number).unwrap_or(0)
}

pub fn small(number: u32) -> u8
    ensures { result ≡ byte_of number }
{
    u8::try_from(number).unwrap_or(0)
}

// The answer to a command that asks nothing of a book, or the command back.
pub fn without_book(heap: Global, command: Command) -> Result<Result<String, Command>, Failed>
    ensures { IfOk result (λ r. MatchResult r (λ _. NoCall command) (λ other. other ≡ command)) }
{
    match command {
        Command::Month { year, day } => Ok(Ok(month_of(heap, year, day)?)),
        Command::Record(frame) => Ok(Ok(record_of(heap, frame.as_slice())?)),
        Command::Quantities(frame) => Ok(Ok(quantities_of(heap, frame.as_slice())?)),
        Command::Name(frame) => Ok(Ok(name_of(heap, frame.as_slice())?)),
        Command::Frame(stated) => Ok(Ok(frame_of(heap, &stated)?)),
        other => Ok(Err(other)),
    }
}

fn month_of(heap: Global, year: u32, day: u32) -> Result<String, Failed> {
    let year = Year::try_from(short(year)).map_err(Refusal::from)?;
    let day = Day::new(year, short(day)).map_err(Refusal::from)?;
    Ok(format!(in heap; "month {}", day.month().number())?)
}

fn record_of(heap: Global, frame: &[u8]) -> Result<String, Failed> {
    let raw = read(frame).map_err(Refusal::from)?.raw();
    let front = format!(in heap; "record {} {} {} {}", raw.year, raw.day, raw.kind, raw.item)?;
    Ok(format!(in heap;
        "{front} {} {} {}",
        raw.tier,
        OrDash(raw.share),
        Bits(raw.readings)
    )?)
}

fn quantities_of(heap: Global, frame: &[u8]) -> Result<String, Failed> {
    let quantities = read(frame).map_err(Refusal::from)?.readings().quantities();
    Ok(format!(in heap; "quantities {}", Whole(quantities))?)
}

fn name_of(heap: Global, frame: &[u8]) -> Result<String, Failed> {
    let name = frame::name(frame).map_err(Refusal::from)?;
    Ok(format!(in heap; "name {}", Hex(name))?)
}

fn frame_of(heap: Global, stated: &Stated) -> Result<String, Failed> {
    let raw = RawRecord {
        year: short(stated.year),
        day: short(stated.day),
        kind: small(stated.kind),
        // No kind has the item 255, nor a share above 1000.
        item: u8::try_from(stated.item).unwrap_or(255),
        tier: stated.tier,
        share: stated
            .share
            .map(|share| u16::try_from(share).unwrap_or(u16::MAX)),
        readings: stated.readings,
    };
    let mut buffer = [0; ROOM];
    let length = write(raw, stated.name.as_slice(), &mut buffer).map_err(Refusal::from)?;
    // No frame is longer than the buffer.
    let frame = buffer.get(..length).unwrap_or(&[]);
    Ok(format!(in heap; "frame {}", Hex(frame))?)
}
