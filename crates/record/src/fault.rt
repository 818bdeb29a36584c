ghost use Rattle.std.specs.Prelude.{◌≡◌};
ghost use Rattle.record.specs.Faults.{refusal_of};
ghost use Rattle.record.specs.declared.fault.RecordFault.TheVariants.{Frame, Date, Kind, Readings};

use calendar::DateFault;
use frame::FrameFault;
use kind::KindFault;
use reading::ReadingFault;
use refusal::{Layer, Refusal};

// Why a record cannot be read or written: a lower layer's fault whole, or a fault of its own.
#[derive(Clone, Copy, PartialEq, Debug)]
pub enum RecordFault {
    Frame(FrameFault),
    Date(DateFault),
    Kind(KindFault),
    Readings(ReadingFault),
    ShareWrong,
}

// Each `From` is written out, since a clause names the fault that `?` makes: one from `thiserror` would have no contract.
impl From<FrameFault> for RecordFault {
    ghost from_gives = { λ e r. r ≡ Frame e };

    fn from(e: FrameFault) -> RecordFault {
        RecordFault::Frame(e)
    }
}

impl From<DateFault> for RecordFault {
    ghost from_gives = { λ e r. r ≡ Date e };

    fn from(e: DateFault) -> RecordFault {
        RecordFault::Date(e)
    }
}

impl From<KindFault> for RecordFault {
    ghost from_gives = { λ e r. r ≡ Kind e };

    fn from(e: KindFault) -> RecordFault {
        RecordFault::Kind(e)
    }
}

impl From<ReadingFault> for RecordFault {
    ghost from_gives = { λ e r. r ≡ Readings e };

    fn from(e: ReadingFault) -> RecordFault {
        RecordFault::Readings(e)
    }
}

impl From<RecordFault> for Refusal {
    ghost from_gives = { λ e r. r ≡ refusal_of e };

    fn from(fault: RecordFault) -> Refusal {
        match fault {
            RecordFault::Frame(lower) => lower.into(),
            RecordFault::Date(lower) => lower.into(),
            RecordFault::Kind(lower) => lower.into(),
            RecordFault::Readings(lower) => lower.into(),
            RecordFault::ShareWrong => Refusal {
                layer: Layer::Record,
                number: 10,
                place: 0,
            },
        }
    }
}
