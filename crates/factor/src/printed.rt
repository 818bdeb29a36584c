ghost use Rattle.std.specs.Prelude.{◌≡◌};
ghost use Rattle.kind.specs.Kinds.{fuel_item};
ghost use Rattle.factor.specs.Classes.{class_number, class_item};
ghost use Rattle.factor.specs.Printed.{printed_at, fuel_factor, printed_default, printed_answer};
ghost use Rattle.factor.specs.Limited.{printed_limited};
ghost use Rattle.factor.specs.Questions.{asked_of};

use crate::question::{Class, Factor, Question};
use crate::source::{LimitedSource, Source};
use kind::{Fuel, Tier};

// A fuel's heat value in thousandths of GJ per tonne (a gas: per 10^4 m3), its carbon in 10^-5 tC/GJ, and the percentage that oxidises.
type PrintedFuel = (u32, u32, u16);

const FUELS: [PrintedFuel; 21] = [
    (26_700, 2740, 94), // anthracite
    (19_570, 2610, 93), // bituminous coal
    (11_900, 2800, 96), // lignite
    (26_344, 2541, 90), // washed coal
    (12_545, 2541, 90), // other washed coal
    (17_460, 3360, 90), // briquettes
    (28_435, 2950, 93), // coke
    (41_816, 2010, 98), // crude oil
    (41_816, 2110, 98), // fuel oil
    (43_070, 1890, 98), // gasoline
    (42_652, 2020, 98), // diesel
    (43_070, 1960, 98), // kerosene
    (44_200, 1720, 98), // liquefied natural gas
    (50_179, 1720, 98), // liquefied petroleum gas
    (45_998, 1820, 98), // refinery gas
    (33_453, 2200, 98), // coal tar
    (179_810, 1358, 99), // coke oven gas
    (33_000, 7080, 99), // blast furnace gas
    (84_000, 4960, 99), // converter gas
    (52_270, 1220, 99), // other coal gas
    (389_310, 1530, 99), // natural gas
];

// Heat at 0.11 tCO2/GJ.
const HEAT: Factor = Factor {
    rate: 1100,
    share: 1000,
};

fn row_of(fuel: Fuel) -> PrintedFuel
    ensures { result ≡ printed_at (fuel_item fuel) }
{
    // A fuel is its row, counted from 1.
    FUELS[usize::from(u8::from(fuel)) - 1]
}

fn fuel_factor(fuel: Fuel) -> Factor
    ensures { result ≡ fuel_factor (fuel_item fuel) }
{
    let (heat, carbon, percent) = row_of(fuel);
    Factor {
        rate: heat * carbon,
        share: 10 * percent,
    }
}

fn default_factor(class: Class) -> Option<Factor>
    ensures { result ≡ printed_default (class_number class) (class_item class) }
{
    match class {
        Class::Combustion(fuel) => Some(fuel_factor(fuel)),
        Class::Heat => Some(HEAT),
        Class::Decomposition(_) | Class::Methane | Class::Power => None,
    }
}

// The printed default values: fuels and heat, in every year.
#[derive(Drop)]
pub struct Printed;

impl Source for Printed {
    ghost table = { λ _ q. printed_answer q };

    fn ask(&mut self, question: Question) -> Option<Factor> {
        match question.tier {
            Tier::Measured => None,
            Tier::Default => default_factor(question.class),
        }
    }
}

impl LimitedSource for Printed {
    ghost limits = { λ _ q. printed_limited (asked_of q) };
}
