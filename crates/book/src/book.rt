ghost use Rattle.journal.specs.Sound.{Sound};

use calendar::Year;
use journal::JournalEntry;
use months::Months;
use rows::Rows;

mod calls;
mod figures;

// The entries in the order in which they were taken, and the figures that those of them that stand come to.
#[derive(Drop)]
pub struct Book<'m> {
    year: Year,
    months: Months,
    journal: Rows<'m, JournalEntry>,
    ghost sound: { ∥ Sound (record { year = year.number; months = months; memory = journal.rows.now; used = journal.length }) ∥₁ },
}
