ghost use Rattle.std.specs.Prelude.{◌≡◌, ◌≤◌};
ghost use Rattle.steam.specs.Line.{enthalpy_over, enthalpy_under};
ghost use Rattle.emission.specs.Emission.{cod_of};
ghost use Rattle.emission.specs.Parts.{fuel_parts, carbonate_parts, bought_parts, energy_parts, water_parts, steam_parts, wastewater_parts};

use crate::products::{product, wide_product};
use reading::{SteamQuantities, WastewaterQuantities, WaterQuantities};
use steam::saturated;

// Hundredths of a degree of water whose heat counts as none: 20 °C.
const BASE_HUNDREDTHS: u32 = 2000;

// Enthalpy of that water, in hundredths of kJ/kg.
const BASE_ENTHALPY: u32 = 8374;

// A function for each formula of the standard, over the numbers that its definition multiplies, so that each meets its own.
pub(crate) fn fuel(quantity: u32, rate: u32, oxidised: u16) -> u128
    ensures { result ≡ fuel_parts quantity rate oxidised }
{
    wide_product(product(quantity, rate), u64::from(oxidised) * 1100)
}

pub(crate) fn carbonate(quantity: u32, rate: u32, purity: u16) -> u128
    ensures { result ≡ carbonate_parts quantity rate purity }
{
    wide_product(product(quantity, rate), u64::from(purity) * 300_000)
}

pub(crate) fn bought(quantity: u32, loss: u16) -> u128
    ensures { result ≡ bought_parts quantity loss }
{
    wide_product(product(quantity, u32::from(loss)), 30_000_000_000)
}

pub(crate) fn energy(quantity: u32, rate: u32) -> u128
    ensures { result ≡ energy_parts quantity rate }
{
    wide_product(product(quantity, rate), 3_000_000_000)
}

pub(crate) fn hot_water(water: WaterQuantities, rate: u32) -> u128
    ensures { result ≡ water_parts water.kilograms water.hundredths rate }
{
    let above = water.hundredths.saturating_sub(BASE_HUNDREDTHS);
    wide_product(product(water.kilograms, above), u64::from(rate) * 125_604)
}

// The pressure is one of the table's range.
pub(crate) fn saturated_steam(steam: SteamQuantities, rate: u32) -> u128
    requires low { 1 ≤ steam.kilopascals }
    requires high { steam.kilopascals ≤ 22000 }
    ensures { result ≡ steam_parts steam.kilograms (enthalpy_over steam.kilopascals) (enthalpy_under steam.kilopascals) rate }
{
    let enthalpy = saturated(steam.kilopascals).unwrap();
    let above = enthalpy.over.saturating_sub(BASE_ENTHALPY * enthalpy.under);
    wide_product(
        product(steam.kilograms, above),
        product(rate, 30_000 / enthalpy.under),
    )
}

// Grams of COD removed, less the sludge.
pub(crate) fn cod_removed(water: WastewaterQuantities) -> u64
    ensures { result ≡ cod_of water }
{
    let removed = product(water.cubic_metres, water.inlet.saturating_sub(water.outlet));
    removed.saturating_sub(product(1000, water.sludge))
}

// Methane in 10^-5 g before and after recovery, and the parts of what is left.
pub(crate) fn wastewater(water: WastewaterQuantities, rate: u32, potential: u16) -> u128
    ensures { result ≡ wastewater_parts (cod_of water) rate water.recovered potential }
{
    let formed = wide_product(cod_removed(water), u64::from(rate));
    let left = formed.saturating_sub(u128::from(product(water.recovered, 100_000_000)));
    left * (u128::from(potential) * 30_000)
}
