ghost use Rattle.std.specs.Prelude.{◌≡◌};
ghost use Rattle.factor.specs.Limits.{keeps};
ghost use Rattle.factor.specs.Classes.{class_number, class_item};

use calendar::Year;
use kind::{Carbonate, Fuel, Tier};

// What a factor is for: a fuel, a carbonate, methane, power or heat.
#[derive(Clone, Copy)]
pub enum Class {
    Combustion(Fuel),
    Decomposition(Carbonate),
    Methane,
    Power,
    Heat,
}

// A class has two numbers, so neither is a conversion of it.
impl Class {
    pub fn number(self) -> u8
        ensures { result ≡ class_number self }
    {
        match self {
            Class::Combustion(_) => 1,
            Class::Decomposition(_) => 2,
            Class::Methane => 3,
            Class::Power => 4,
            Class::Heat => 5,
        }
    }

    // Which of the class it is; 0 where the class has one alone.
    pub fn item(self) -> u8
        ensures { result ≡ class_item self }
    {
        match self {
            Class::Combustion(fuel) => fuel.into(),
            Class::Decomposition(carbonate) => carbonate.into(),
            Class::Methane | Class::Power | Class::Heat => 0,
        }
    }
}

// What a source is asked.
#[derive(Clone, Copy)]
pub struct Question {
    pub class: Class,
    pub tier: Tier,
    pub year: Year,
}

// A rate in the unit of its class, and a share in thousandths.
#[derive(Clone, Copy)]
pub struct Factor {
    pub rate: u32,
    pub share: u16,
}

impl Factor {
    // Whether rate and share are within the limits of a class.
    pub fn keeps(self, class: Class) -> bool
        ensures { result ≡ keeps (class_number class) self.rate self.share }
    {
        match class {
            Class::Combustion(_) => self.rate <= 1_000_000_000 && self.share <= 1000,
            Class::Decomposition(_) => self.rate <= 100_000 && self.share == 1000,
            Class::Methane => self.rate <= 30_000 && self.share <= 1000,
            Class::Power => self.rate <= 100_000 && self.share == 1000,
            Class::Heat => self.rate <= 10_000 && self.share == 1000,
        }
    }
}
