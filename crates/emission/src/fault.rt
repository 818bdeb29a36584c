ghost use Rattle.std.specs.Prelude.{◌≡◌};
ghost use Rattle.emission.specs.Faults.{refusal_of};
ghost use Rattle.emission.specs.declared.fault.EmissionFault.TheVariants.{Factor};

use factor::FactorFault;
use refusal::{Layer, Refusal};

// Why a lawful record has no emission: its wastewater does not add up, or a fault of its factor.
#[derive(Clone, Copy, PartialEq, Eq, Debug)]
pub enum EmissionFault {
    OutletAboveInlet,
    SludgeAboveCod,
    Factor(FactorFault),
}

impl From<FactorFault> for EmissionFault {
    ghost from_gives = { λ e r. r ≡ Factor e };

    fn from(e: FactorFault) -> EmissionFault {
        EmissionFault::Factor(e)
    }
}

impl From<EmissionFault> for Refusal {
    ghost from_gives = { λ e r. r ≡ refusal_of e };

    fn from(fault: EmissionFault) -> Refusal {
        let place = match fault {
            EmissionFault::OutletAboveInlet => 1,
            EmissionFault::SludgeAboveCod => 2,
            EmissionFault::Factor(lower) => return lower.into(),
        };
        Refusal {
            layer: Layer::Record,
            number: 11,
            place,
        }
    }
}
