ghost use Rattle.std.specs.Prelude.{◌≡◌, map};
ghost use Rattle.journal.specs.Contents.{Follows, usable};
ghost use Rattle.book.specs.Views.{contents_of};
ghost use Rattle.year.specs.Law.{Law, Throughout};
ghost use Rattle.year.specs.Replayed.{call_of, calls_of, offer_from, Called};

use crate::call::Call;
use crate::opening::open;
use book::Book;
use calendar::Year;
use factor::{Nothing, Source};
use journal::JournalEntry;

// Offers a frame with the source at a place, or with one that holds nothing; book and sources stay two, since a call lends one to the other.
fn offer_from<S: Source>(book: &mut Book<'_>, sources: &mut [S], at: usize, frame: &[u8])
    ensures called { Called (offer_from (map S.Source.table sources.old) at frame.now) (contents_of book.old) (contents_of book.new) }
    ensures tables { map S.Source.table sources.new ≡ map S.Source.table sources.old }
    ensures memory { book.new.journal.rows.ghost_name ≡ book.old.journal.rows.ghost_name }
{
    // By index: what a slice's `get_mut` lends leaves unknown which tables the sources then have.
    if at < sources.len() {
        let _ = book.offer(frame, &mut sources[at]);
    } else {
        let _ = book.offer(frame, &mut Nothing);
    }
}

// The answers are let go: what each of them is, the list of calls determines.
fn replay_call<S: Source>(book: &mut Book<'_>, sources: &mut [S], call: Call<'_>)
    ensures called { Called (call_of (map S.Source.table sources.old) call.entry) (contents_of book.old) (contents_of book.new) }
    ensures tables { map S.Source.table sources.new ≡ map S.Source.table sources.old }
    ensures memory { book.new.journal.rows.ghost_name ≡ book.old.journal.rows.ghost_name }
{
    match call {
        Call::Offer(frame, at) => offer_from(book, sources, at, frame),
        Call::Withdraw(number) => {
            let _ = book.withdraw(number);
        }
        Call::Hold(month) => {
            let _ = book.hold(month);
        }
        Call::Release(month) => {
            let _ = book.release(month);
        }
        Call::Close(month) => {
            let _ = book.close(month);
        }
    }
}

// The book that a list of calls makes of a new year.
pub fn replay<'m, S: Source>(
    year: Year,
    memory: &'m mut [JournalEntry],
    sources: &mut [S],
    calls: &[Call<'_>],
) -> Book<'m>
    ensures follows { Follows year.number (usable memory.old) (calls_of (map S.Source.table sources.old) calls.now) (contents_of result) }
    ensures law { Law year.number (usable memory.old) (calls_of (map S.Source.table sources.old) calls.now) (contents_of result) }
    ensures throughout { Throughout year.number (usable memory.old) (calls_of (map S.Source.table sources.old) calls.now) (contents_of result) }
    ensures tables { map S.Source.table sources.new ≡ map S.Source.table sources.old }
    ensures memory { result.journal.rows.ghost_name ≡ memory.entry.ghost_name }
{
    let mut book = open(year, memory);
    for call in calls {
        replay_call(&mut book, sources, *call);
    }
    book
}
