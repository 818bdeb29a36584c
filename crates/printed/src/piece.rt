ghost use Rattle.std.specs.Prelude.{◌≡◌, ◌+◌, ◌≤◌, ◌++◌, length};
ghost use Rattle.printed.specs.Text as text;

use crate::tonnes::Tonnes;
use arrayvec::ArrayVec;
use calendar::Year;
use frame_log::Counts;
use itoa::Buffer;

// A line of the print, of at most 64 bytes.
pub(crate) type Piece = ArrayVec<u8, 64>;

fn put(piece: &mut Piece, part: &[u8])
    requires { length piece.old.items + length part.now ≤ 64 }
    ensures { piece.new.items ≡ piece.old.items ++ part.now }
{
    piece.try_extend_from_slice(part).unwrap();
}

// The year, and how many frames were taken and how many refused.
pub(crate) fn first_line(year: Year, counts: Counts) -> Piece
    ensures { result.items ≡ text.first_text year.number counts.taken counts.refused }
{
    let mut digits = Buffer::new();
    let mut piece = Piece::new();
    put(&mut piece, digits.format(year.number()).as_bytes());
    put(&mut piece, b" ");
    put(&mut piece, digits.format(counts.taken).as_bytes());
    put(&mut piece, b" ");
    put(&mut piece, digits.format(counts.refused).as_bytes());
    put(&mut piece, b"\n");
    piece
}

// A line under its label: how many entries, and their tonnes.
pub(crate) fn labelled(label: u8, count: u32, tonnes: Tonnes) -> Piece
    ensures { result.items ≡ text.line_text label count tonnes.0 }
{
    let mut digits = Buffer::new();
    let mut piece = Piece::new();
    put(&mut piece, &[label, b' ']);
    put(&mut piece, digits.format(count).as_bytes());
    put(&mut piece, b" ");
    if tonnes.is_negative() {
        put(&mut piece, b"-");
    }
    put(&mut piece, digits.format(tonnes.whole()).as_bytes());
    put(&mut piece, b".");
    put(&mut piece, &tonnes.digits());
    put(&mut piece, b"\n");
    piece
}
