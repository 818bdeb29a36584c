ghost use Rattle.std.specs.Prelude.{◌≡◌, ◌<◌, ◌≤◌, ◌++◌, take, drop, length, IfOk, MatchResult};
ghost use Rattle.months.specs.Lines.{line_number};
ghost use Rattle.book.specs.Views.{contents_of};
ghost use Rattle.statement.specs.Statement as statement;
ghost use Rattle.statement.specs.Statement.{stated, statement_bytes};
ghost use Rattle.statement.specs.Laws.{Reads};

use crate::fault::BufferShort;
use arrayvec::ArrayVec;
use book::{Book, Total};
use calendar::Year;
use months::{Figure, Line};

// How many bytes a statement has.
pub const LENGTH: usize = 116;

// Tag 11: the year.
fn year_field(year: Year) -> [u8; 5]
    ensures { result ≡ statement.year_field year.number }
{
    let [high, low] = year.number().to_be_bytes();
    [0x11, 0, 2, high, low]
}

// Tag 12: a line's number, count and grams.
fn line_field(line: Line, figure: Figure) -> [u8; 14]
    requires { figure.count ≤ 60000 }
    ensures { result ≡ statement.line_field (line_number line) figure }
{
    let [high, low] = (figure.count as u16).to_be_bytes();
    let [a, b, c, d, e, f, g, h] = figure.grams.to_be_bytes();
    [0x12, 0, 11, line.into(), high, low, a, b, c, d, e, f, g, h]
}

// Tag 13: the count of all, and the net grams in two's complement.
fn total_field(total: Total) -> [u8; 13]
    requires { total.count ≤ 60000 }
    ensures { result ≡ statement.total_field total.count total.grams }
{
    let [high, low] = (total.count as u16).to_be_bytes();
    let [a, b, c, d, e, f, g, h] = total.grams.to_be_bytes();
    [0x13, 0, 10, high, low, a, b, c, d, e, f, g, h]
}

// The bytes of a book's statement.
fn bytes_of(book: &Book<'_>) -> ArrayVec<u8, LENGTH>
    ensures bytes { result.items ≡ statement_bytes (stated (contents_of book.now)) }
    ensures reads { Reads result.items (stated (contents_of book.now)) }
{
    let mut bytes = ArrayVec::new();
    bytes
        .try_extend_from_slice(&year_field(book.year()))
        .unwrap();
    for line in Line::all() {
        let field = line_field(line, book.year_figure(line));
        bytes.try_extend_from_slice(&field).unwrap();
    }
    bytes
        .try_extend_from_slice(&total_field(book.total()))
        .unwrap();
    bytes
}

// Writes a book's statement into the front of a buffer and answers its length; a shorter buffer keeps every byte.
pub fn write(book: &Book<'_>, out: &mut [u8]) -> Result<usize, BufferShort>
    ensures written { MatchResult result (λ n. (n ≡ 116) × (out.new ≡ statement_bytes (stated (contents_of book.now)) ++ drop 116 out.old)) (λ e. (e.needed ≡ 116) × (length out.old < 116) × (out.new ≡ out.old)) }
    ensures reads { IfOk result (λ n. Reads (take n out.new) (stated (contents_of book.now))) }
{
    if out.len() < LENGTH {
        return Err(BufferShort { needed: LENGTH });
    }
    out[..LENGTH].copy_from_slice(bytes_of(book).as_slice());
    Ok(LENGTH)
}
