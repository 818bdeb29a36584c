ghost use Rattle.std.specs.Prelude.{◌≡◌};
ghost use Rattle.reading.specs.Refusals.{refusal_of};

use refusal::{Layer, Refusal};

// Why readings are refused: their number or their set is wrong, or a reading is unlawful, the first such by its number from 1.
#[derive(Clone, Copy, PartialEq, Eq, Debug)]
pub enum ReadingFault {
    SetWrong,
    Unlawful { index: u8 },
}

impl From<ReadingFault> for Refusal {
    ghost from_gives = { λ e r. r ≡ refusal_of e };

    // Number 9 of the record layer; the place is 0 for the set as a whole.
    fn from(fault: ReadingFault) -> Refusal {
        let place = match fault {
            ReadingFault::SetWrong => 0,
            ReadingFault::Unlawful { index } => usize::from(index),
        };
        Refusal {
            layer: Layer::Record,
            number: 9,
            place,
        }
    }
}
