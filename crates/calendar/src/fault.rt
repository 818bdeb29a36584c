ghost use Rattle.std.specs.Prelude.{◌≡◌};
ghost use Rattle.calendar.specs.Faults.{refusal_of};

use refusal::{Layer, Refusal};

// Which part of a date cannot be.
#[derive(Clone, Copy, PartialEq, Eq, Debug)]
pub enum DateFault {
    YearUnlawful,
    DayUnlawful,
}

impl From<DateFault> for Refusal {
    ghost from_gives = { λ e r. r ≡ refusal_of e };

    fn from(fault: DateFault) -> Refusal {
        match fault {
            DateFault::YearUnlawful | DateFault::DayUnlawful => Refusal {
                layer: Layer::Record,
                number: 6,
                place: 0,
            },
        }
    }
}
