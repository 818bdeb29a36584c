ghost use Rattle.std.specs.Prelude.{◌≡◌};
ghost use Rattle.journal.specs.Faults.{refusal_of};
ghost use Rattle.journal.specs.declared.fault.BookFault.TheVariants.{Record, Emission, JournalFull, StateForbids as Forbidden, NoSuchMonth as MonthUnknown, NoSuchLine as LineUnknown};

use calendar::NoSuchMonth;
use emission::EmissionFault;
use months::{NoSuchLine, StateForbids};
use record::RecordFault;
use refusal::{Layer, Refusal};
use rows::Full;

// Why a call of the book is refused: a lower layer's fault whole, or a fault of its own.
#[derive(Clone, Copy, PartialEq, Debug)]
pub enum BookFault {
    Record(RecordFault),
    Emission(EmissionFault),
    OtherYear,
    MonthNotOpen,
    JournalFull,
    NoStandingEntry,
    StateForbids,
    NoSuchMonth,
    NoSuchLine,
}

// Each `From` is written out, since a clause names the fault that `?` makes: one from `thiserror` would have no contract.
impl From<RecordFault> for BookFault {
    ghost from_gives = { λ e r. r ≡ Record e };

    fn from(e: RecordFault) -> BookFault {
        BookFault::Record(e)
    }
}

impl From<EmissionFault> for BookFault {
    ghost from_gives = { λ e r. r ≡ Emission e };

    fn from(e: EmissionFault) -> BookFault {
        BookFault::Emission(e)
    }
}

impl From<Full> for BookFault {
    ghost from_gives = { λ _ r. r ≡ JournalFull };

    fn from(_e: Full) -> BookFault {
        BookFault::JournalFull
    }
}

impl From<StateForbids> for BookFault {
    ghost from_gives = { λ _ r. r ≡ Forbidden };

    fn from(_e: StateForbids) -> BookFault {
        BookFault::StateForbids
    }
}

impl From<NoSuchMonth> for BookFault {
    ghost from_gives = { λ _ r. r ≡ MonthUnknown };

    fn from(_e: NoSuchMonth) -> BookFault {
        BookFault::NoSuchMonth
    }
}

impl From<NoSuchLine> for BookFault {
    ghost from_gives = { λ _ r. r ≡ LineUnknown };

    fn from(_e: NoSuchLine) -> BookFault {
        BookFault::NoSuchLine
    }
}

impl From<BookFault> for Refusal {
    ghost from_gives = { λ e r. r ≡ refusal_of e };

    fn from(fault: BookFault) -> Refusal {
        let number = match fault {
            BookFault::Record(lower) => return lower.into(),
            BookFault::Emission(lower) => return lower.into(),
            BookFault::OtherYear => 14,
            BookFault::MonthNotOpen => 15,
            BookFault::JournalFull => 16,
            BookFault::NoStandingEntry => 17,
            BookFault::StateForbids => 18,
            BookFault::NoSuchMonth | BookFault::NoSuchLine => 19,
        };
        Refusal {
            layer: Layer::Book,
            number,
            place: 0,
        }
    }
}
