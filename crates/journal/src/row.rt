ghost use Rattle.std.specs.Prelude.{◌≡◌, false};

use calendar::Month;
use emission::Entry;
use kind::{Kind, Tier};
use reading::Quantities;

// A row of the journal: an entry, the month of its day, and whether it stands or was withdrawn.
#[derive(Clone, Copy)]
pub struct JournalEntry {
    pub entry: Entry,
    pub month: Month,

    // Beside the entry and not around it: a withdrawn entry stays in the journal.
    pub stands: bool,
}

// The number of an entry, counted from 1, and its grams.
#[derive(Clone, Copy, PartialEq, Eq, Debug)]
pub struct Booked {
    pub number: usize,
    pub grams: u64,
}

impl JournalEntry {
    // A row to make memory of. It is no entry: promised is only that it does not stand and has no grams.
    pub fn blank() -> JournalEntry
        ensures stands { result.stands ≡ false }
        ensures grams { result.entry.grams ≡ 0 }
    {
        let entry = Entry {
            day: 0,
            kind: Kind::BoughtCo2,
            tier: Tier::Default,
            share: None,
            quantities: Quantities::Amount(0),
            factor: None,
            grams: 0,
        };
        let [january, ..] = Month::all();
        JournalEntry {
            entry,
            month: january,
            stands: false,
        }
    }
}
