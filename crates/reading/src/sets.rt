// A record's readings, by the kind of record, and the whole quantities that they stand for.

#[derive(Clone, Copy, PartialEq, Debug)]
pub struct Water {
    pub kilograms: f32,
    pub celsius: f32,
}

#[derive(Clone, Copy, PartialEq, Debug)]
pub struct Steam {
    pub kilograms: f32,
    pub kilopascals: f32,
}

#[derive(Clone, Copy, PartialEq, Debug)]
pub struct Wastewater {
    pub cubic_metres: f32,
    pub inlet: f32,
    pub outlet: f32,
    pub sludge: f32,
    pub recovered: f32,
}

#[derive(Clone, Copy, PartialEq, Debug)]
pub enum ReadingSet {
    Amount(f32),
    Water(Water),
    Steam(Steam),
    Wastewater(Wastewater),
}

// Which readings a set has.
#[derive(Clone, Copy, PartialEq, Eq, Debug)]
pub enum Shape {
    Amount,
    Water,
    Steam,
    Wastewater,
}

// Structs of their own: a quantity's name has its unit, degrees are counted in hundredths, and a reading's struct is one of f32.
#[derive(Clone, Copy)]
pub struct WaterQuantities {
    pub kilograms: u32,
    pub hundredths: u32,
}

#[derive(Clone, Copy)]
pub struct SteamQuantities {
    pub kilograms: u32,
    pub kilopascals: u32,
}

#[derive(Clone, Copy)]
pub struct WastewaterQuantities {
    pub cubic_metres: u32,
    pub inlet: u32,
    pub outlet: u32,
    pub sludge: u32,
    pub recovered: u32,
}

#[derive(Clone, Copy)]
pub enum Quantities {
    Amount(u32),
    Water(WaterQuantities),
    Steam(SteamQuantities),
    Wastewater(WastewaterQuantities),
}
