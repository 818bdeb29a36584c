ghost use Rattle.std.specs.Prelude.{◌≡◌};
ghost use Rattle.kind.specs.Faults.{refusal_of};

use refusal::{Layer, Refusal};

// What of a record's subject is unknown.
#[derive(Clone, Copy, PartialEq, Eq, Debug)]
pub enum KindFault {
    KindUnknown,
    TierUnknown,
}

impl From<KindFault> for Refusal {
    ghost from_gives = { λ e r. r ≡ refusal_of e };

    fn from(fault: KindFault) -> Refusal {
        let number = match fault {
            KindFault::KindUnknown => 7,
            KindFault::TierUnknown => 8,
        };
        Refusal {
            layer: Layer::Record,
            number,
            place: 0,
        }
    }
}
