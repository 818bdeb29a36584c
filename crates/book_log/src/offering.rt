ghost use Rattle.std.specs.Prelude.{◌≡◌};
ghost use Rattle.book.specs.Views.{contents_of};
ghost use Rattle.book_log.specs.Log.{OfferedAll};

use crate::taker::Offering;
use book::Book;
use factor::Source;
use frame_log::{Counts, tally};

// Offers every frame to a book, one after another, with one source; the two go together here alone.
pub fn offer_frames<S: Source>(book: &mut Book<'_>, source: &mut S, frames: &[u8]) -> Counts
    ensures offered { OfferedAll frames.now (S.Source.table source.old) (contents_of book.old) result.taken result.refused (contents_of book.new) }
    ensures same { S.Source.table source.new ≡ S.Source.table source.old }
    ensures memory { book.new.journal.rows.ghost_name ≡ book.old.journal.rows.ghost_name }
{
    tally(frames, &mut Offering { book, source })
}
