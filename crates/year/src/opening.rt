ghost use Rattle.std.specs.Prelude.{◌≡◌, []};
ghost use Rattle.journal.specs.Contents.{Follows, usable};
ghost use Rattle.book.specs.Views.{contents_of};
ghost use Rattle.year.specs.Opened.{Lawful};

use book::Book;
use calendar::Year;
use journal::JournalEntry;

// A new year: every month open, no entry. Of the memory the first 60,000 rows may be used, or all if there are fewer.
pub fn open(year: Year, memory: &mut [JournalEntry]) -> Book<'_>
    ensures follows { Follows year.number (usable memory.old) [] (contents_of result) }
    ensures law { Lawful year.number (usable memory.old) }
    ensures memory { result.journal.rows.ghost_name ≡ memory.entry.ghost_name }
    ensures rows { result.journal.rows.now ≡ memory.old }
{
    Book::new(year, memory)
}
