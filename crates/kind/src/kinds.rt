ghost use Rattle.std.specs.Prelude.{◌&&◌, T, nat_le};

// A fuel, by its row of the fuel table: no enum, since a match of 21 arms would say no more than the row's range.
#[derive(Clone, Copy, PartialEq, Eq, Debug)]
pub struct Fuel {
    row: u8,
    ghost lawful: { T (nat_le 1 row && nat_le row 21) },
}

#[derive(Clone, Copy, PartialEq, Eq, Debug)]
pub enum Carbonate {
    Calcium,
    SodiumBicarbonate,
    Other,
}

// How heat is measured.
#[derive(Clone, Copy, PartialEq, Eq, Debug)]
pub enum Heat {
    Energy = 0,
    HotWater = 1,
    SaturatedSteam = 2,
}

// What a record is about: its kind with its item.
#[derive(Clone, Copy, PartialEq, Eq, Debug)]
pub enum Kind {
    FuelBurnt(Fuel),
    CarbonateUsed(Carbonate),
    BoughtCo2,
    WastewaterTreated,
    PowerBought,
    PowerSold,
    HeatBought(Heat),
    HeatSold(Heat),
}

mod numbers;
