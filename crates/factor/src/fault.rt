ghost use Rattle.std.specs.Prelude.{◌≡◌};
ghost use Rattle.factor.specs.Faults.{refusal_of};
ghost use Rattle.factor.specs.declared.fault.FactorFault.TheVariants.{ListFull};

use refusal::{Layer, Refusal};
use rows::Full;

// Why a factor cannot be had, taken in or used.
#[derive(Clone, Copy, PartialEq, Eq, Debug)]
pub enum FactorFault {
    FactorMissing,
    MethaneExceeded,
    ListFull,
}

impl From<Full> for FactorFault {
    ghost from_gives = { λ _ r. r ≡ ListFull };

    fn from(_full: Full) -> FactorFault {
        FactorFault::ListFull
    }
}

impl From<FactorFault> for Refusal {
    ghost from_gives = { λ e r. r ≡ refusal_of e };

    fn from(fault: FactorFault) -> Refusal {
        let number = match fault {
            FactorFault::FactorMissing => 12,
            FactorFault::MethaneExceeded => 13,
            FactorFault::ListFull => 16,
        };
        Refusal {
            layer: Layer::Factor,
            number,
            place: 0,
        }
    }
}
