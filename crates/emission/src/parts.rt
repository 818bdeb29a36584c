ghost use Rattle.std.specs.Prelude.{◌≡◌};
ghost use Rattle.refusal.specs.Said.{said};
ghost use Rattle.kind.specs.Kinds.{numbers_of};
ghost use Rattle.factor.specs.Faults as factors;
ghost use Rattle.emission.specs.Emission.{emission_parts, cod_checked, methane_checked, InRange};
ghost use Rattle.emission.specs.Faults.{refusal_of};

use crate::fault::EmissionFault;
use crate::formulas::{
    bought, carbonate, cod_removed, energy, fuel, hot_water, saturated_steam, wastewater,
};
use crate::products::{product, wide_product};
use factor::{Factor, FactorFault};
use kind::Kind;
use reading::Quantities;

// A missing purity is 98 %.
const PURITY: u16 = 980;

// A missing factor counts as none, and so does the missing loss of bought CO2, in the definition too, so that no case is left that cannot be.
const NO_FACTOR: Factor = Factor { rate: 0, share: 0 };

// The exact emission, in parts of a gram, of four fields of an entry, which is made once its grams are known.
pub(crate) fn emission(
    kind: Kind,
    quantities: Quantities,
    share: Option<u16>,
    factor: Option<Factor>,
) -> u128
    requires { InRange quantities }
    ensures { result ≡ emission_parts (numbers_of kind).0 quantities share factor }
{
    let factor = factor.unwrap_or(NO_FACTOR);
    match (quantities, kind) {
        (Quantities::Amount(quantity), Kind::FuelBurnt(_)) => {
            fuel(quantity, factor.rate, factor.share)
        }
        (Quantities::Amount(quantity), Kind::CarbonateUsed(_)) => {
            carbonate(quantity, factor.rate, share.unwrap_or(PURITY))
        }
        (Quantities::Amount(quantity), Kind::BoughtCo2) => bought(quantity, share.unwrap_or(0)),
        (Quantities::Amount(quantity), _) => energy(quantity, factor.rate),
        (Quantities::Water(water), _) => hot_water(water, factor.rate),
        (Quantities::Steam(steam), _) => saturated_steam(steam, factor.rate),
        (Quantities::Wastewater(water), _) => wastewater(water, factor.rate, factor.share),
    }
}

// Whether the COD of wastewater adds up.
pub(crate) fn check_cod(quantities: Quantities) -> Result<(), EmissionFault>
    ensures { said (λ _. tt) refusal_of result ≡ cod_checked quantities }
{
    if let Quantities::Wastewater(water) = quantities {
        if water.outlet > water.inlet {
            return Err(EmissionFault::OutletAboveInlet);
        }
        if product(1000, water.sludge) > product(water.cubic_metres, water.inlet - water.outlet) {
            return Err(EmissionFault::SludgeAboveCod);
        }
    }
    Ok(())
}

// Whether no more methane is recovered than formed.
pub(crate) fn check_methane(
    quantities: Quantities,
    factor: Option<Factor>,
) -> Result<(), FactorFault>
    ensures { said (λ _. tt) factors.refusal_of result ≡ methane_checked quantities factor }
{
    if let Quantities::Wastewater(water) = quantities {
        let formed = wide_product(
            cod_removed(water),
            u64::from(factor.unwrap_or(NO_FACTOR).rate),
        );
        if u128::from(product(water.recovered, 100_000_000)) > formed {
            return Err(FactorFault::MethaneExceeded);
        }
    }
    Ok(())
}
