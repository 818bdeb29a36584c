ghost use Rattle.std.specs.Prelude.{◌≡◌};
ghost use Rattle.refusal.specs.Said.{said};
ghost use Rattle.kind.specs.Faults.{refusal_of};
ghost use Rattle.kind.specs.Subject.{kind_in, shape_in};
ghost use Rattle.kind.specs.Kinds.{numbers_of, carbonate_item, heat_item, fuel_item, fuel_in, carbonate_in, heat_in, plain_in};

use super::{Carbonate, Fuel, Heat, Kind};
use crate::fault::KindFault;
use reading::Shape;

impl TryFrom<u8> for Fuel {
    type Error = KindFault;

    ghost try_from_gives = { λ row r. said fuel_item refusal_of r ≡ fuel_in row };

    fn try_from(row: u8) -> Result<Fuel, KindFault> {
        if (1..=21).contains(&row) {
            Ok(Fuel { row })
        } else {
            Err(KindFault::KindUnknown)
        }
    }
}

impl From<Fuel> for u8 {
    ghost from_gives = { λ fuel n. n ≡ fuel_item fuel };

    fn from(fuel: Fuel) -> u8 {
        fuel.row
    }
}

impl TryFrom<u8> for Carbonate {
    type Error = KindFault;

    ghost try_from_gives = { λ item r. said carbonate_item refusal_of r ≡ carbonate_in item };

    fn try_from(item: u8) -> Result<Carbonate, KindFault> {
        match item {
            1 => Ok(Carbonate::Calcium),
            2 => Ok(Carbonate::SodiumBicarbonate),
            3 => Ok(Carbonate::Other),
            _ => Err(KindFault::KindUnknown),
        }
    }
}

impl From<Carbonate> for u8 {
    ghost from_gives = { λ carbonate n. n ≡ carbonate_item carbonate };

    fn from(carbonate: Carbonate) -> u8 {
        carbonate as u8 + 1
    }
}

impl TryFrom<u8> for Heat {
    type Error = KindFault;

    ghost try_from_gives = { λ item r. said heat_item refusal_of r ≡ heat_in item };

    fn try_from(item: u8) -> Result<Heat, KindFault> {
        match item {
            0 => Ok(Heat::Energy),
            1 => Ok(Heat::HotWater),
            2 => Ok(Heat::SaturatedSteam),
            _ => Err(KindFault::KindUnknown),
        }
    }
}

impl From<Heat> for u8 {
    ghost from_gives = { λ heat n. n ≡ heat_item heat };

    fn from(heat: Heat) -> u8 {
        heat as u8
    }
}

impl Heat {
    fn shape(self) -> Shape
        ensures { result ≡ shape_in 7 (heat_item self) }
    {
        match self {
            Heat::Energy => Shape::Amount,
            Heat::HotWater => Shape::Water,
            Heat::SaturatedSteam => Shape::Steam,
        }
    }
}

impl Kind {
    // The kind of a number, with its item: two parameters name the two numbers, where the TryFrom of a pair would not.
    pub fn new(kind: u8, item: u8) -> Result<Kind, KindFault>
        ensures { said numbers_of refusal_of result ≡ kind_in kind item }
    {
        match kind {
            1 => Ok(Kind::FuelBurnt(Fuel::try_from(item)?)),
            2 => Ok(Kind::CarbonateUsed(Carbonate::try_from(item)?)),
            7 => Ok(Kind::HeatBought(Heat::try_from(item)?)),
            8 => Ok(Kind::HeatSold(Heat::try_from(item)?)),
            _ => Kind::without_item(kind, item),
        }
    }

    // The kinds whose one item is 0.
    fn without_item(kind: u8, item: u8) -> Result<Kind, KindFault>
        ensures { said numbers_of refusal_of result ≡ plain_in kind item }
    {
        match (kind, item) {
            (3, 0) => Ok(Kind::BoughtCo2),
            (4, 0) => Ok(Kind::WastewaterTreated),
            (5, 0) => Ok(Kind::PowerBought),
            (6, 0) => Ok(Kind::PowerSold),
            _ => Err(KindFault::KindUnknown),
        }
    }

    // A kind has two numbers, so neither is a conversion of it.
    pub fn number(self) -> u8
        ensures { result ≡ (numbers_of self).0 }
    {
        match self {
            Kind::FuelBurnt(_) => 1,
            Kind::CarbonateUsed(_) => 2,
            Kind::BoughtCo2 => 3,
            Kind::WastewaterTreated => 4,
            Kind::PowerBought => 5,
            Kind::PowerSold => 6,
            Kind::HeatBought(_) => 7,
            Kind::HeatSold(_) => 8,
        }
    }

    pub fn item(self) -> u8
        ensures { result ≡ (numbers_of self).1 }
    {
        match self {
            Kind::FuelBurnt(fuel) => fuel.into(),
            Kind::CarbonateUsed(carbonate) => carbonate.into(),
            Kind::BoughtCo2 | Kind::WastewaterTreated | Kind::PowerBought | Kind::PowerSold => 0,
            Kind::HeatBought(heat) | Kind::HeatSold(heat) => heat.into(),
        }
    }

    // Which readings records of this kind have.
    pub fn shape(self) -> Shape
        ensures { result ≡ shape_in (numbers_of self).0 (numbers_of self).1 }
    {
        match self {
            Kind::FuelBurnt(_)
            | Kind::CarbonateUsed(_)
            | Kind::BoughtCo2
            | Kind::PowerBought
            | Kind::PowerSold => Shape::Amount,
            Kind::WastewaterTreated => Shape::Wastewater,
            Kind::HeatBought(heat) | Kind::HeatSold(heat) => heat.shape(),
        }
    }
}
