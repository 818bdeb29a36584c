ghost use Rattle.std.specs.Prelude.{◌≡◌, ◌+◌, pos};
ghost use Rattle.months.specs.Lines.{line_number};
ghost use Rattle.journal.specs.Reads.{year_figure, total_count, net_grams};
ghost use Rattle.printed.specs.Text as text;

use crate::piece::{Piece, first_line, labelled};
use arrayvec::ArrayVec;
use book::{Book, Total};
use frame_log::Counts;
use months::{Figure, Line};

// What is printed of a year: nine lines of at most 64 bytes.
pub type YearText = ArrayVec<u8, 576>;

// A line of the year.
fn figure_line(line: Line, figure: Figure) -> Piece
    ensures { result.items ≡ text.line_text (48 + line_number line) figure.count (pos figure.grams) }
{
    let label = b'0' + u8::from(line);
    labelled(label, figure.count, figure.grams.into())
}

// The line of all entries.
fn total_line(total: Total) -> Piece
    ensures { result.items ≡ text.line_text 84 total.count total.grams }
{
    labelled(b'T', total.count, total.grams.into())
}

// The year of a book, with the frames that were taken and refused.
pub fn year_text(book: &Book<'_>, counts: Counts) -> YearText
    ensures { result.items ≡ text.year_text book.now.year.number counts.taken counts.refused (year_figure book.now.months) (total_count book.now.months) (net_grams book.now.months) }
{
    let mut text = YearText::new();
    text.try_extend_from_slice(first_line(book.year(), counts).as_slice())
        .unwrap();
    for line in Line::all() {
        let piece = figure_line(line, book.year_figure(line));
        text.try_extend_from_slice(piece.as_slice()).unwrap();
    }
    text.try_extend_from_slice(total_line(book.total()).as_slice())
        .unwrap();
    text
}
