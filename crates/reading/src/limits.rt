// Each reading's limits: what is lawful by them, and the quantity of a lawful reading.
ghost use Rattle.std.specs.Prelude.{◌≡◌, ◌*◌, ◌≤◌, T, if◌then◌else◌, Some, None, length, map};
ghost use Rattle.rounding.specs.Nearest.{nearest};
ghost use Rattle.reading.specs.Dyadic.{over, under, lawful};
ghost use Rattle.reading.specs.Limited.{limited, all_kept, first_past, lawful_set, first_unlawful};

use crate::sets::ReadingSet;
use std::num::saturating_f64_to_u32;

// Both limits are lawful; `scale` units of the quantity make one of the reading.
#[derive(Clone, Copy)]
pub(crate) struct Limits {
    low: u32,
    high: u32,
    scale: u8,
}

// Kilograms, and every reading with no limits of its own.
pub(crate) const AMOUNT: Limits = Limits {
    low: 0,
    high: 800000,
    scale: 1,
};

// Degrees Celsius; the quantity counts hundredths.
pub(crate) const CELSIUS: Limits = Limits {
    low: 20,
    high: 200,
    scale: 100,
};

pub(crate) const KILOPASCALS: Limits = Limits {
    low: 1,
    high: 22000,
    scale: 1,
};

pub(crate) const CUBIC_METRES: Limits = Limits {
    low: 0,
    high: 80000,
    scale: 1,
};

// In grams per cubic metre.
pub(crate) const COD: Limits = Limits {
    low: 0,
    high: 100000,
    scale: 1,
};

impl Limits {
    // Whether the reading is finite, with a clear sign bit, and within the limits as delivered.
    fn allow(self, x: f32) -> bool
        ensures { result ≡ lawful x self.low self.high }
    {
        if !x.is_finite() || x.is_sign_negative() {
            return false;
        }
        // An f64 holds each f32 and each u32 exactly.
        let wide = f64::from(x);
        f64::from(self.low) <= wide && wide <= f64::from(self.high)
    }

    // The reading's quantity. The product is exact in an f64, which keeps 53 digits: a reading has 24 and a scale 8.
    #[tactic(auto, using(crate::proofs::Exactly::quantity_is))]
    pub(crate) fn quantity(self, x: f32) -> u32
        ensures { self.high ≤ 800000 → T (lawful x self.low self.high) → result ≡ nearest (self.scale * over x) (under x) }
    {
        saturating_f64_to_u32((f64::from(x) * f64::from(self.scale)).round())
    }
}

// The number from 1 of the first reading that its limits do not allow.
fn first_past(readings: &[(f32, Limits)]) -> Option<u8>
    requires { length readings.now ≤ 5 }
    ensures { result ≡ (if all_kept (map limited readings.now) then None else Some (first_past 1 (map limited readings.now))) }
{
    let index = readings.iter().position(|(x, limits)| !limits.allow(*x))?;
    Some(index as u8 + 1)
}

// The number from 1 of the set's first unlawful reading.
pub(crate) fn first_unlawful(set: ReadingSet) -> Option<u8>
    ensures { result ≡ (if lawful_set set then None else Some (first_unlawful set)) }
{
    match set {
        ReadingSet::Amount(x) => first_past(&[(x, AMOUNT)]),
        ReadingSet::Water(w) => first_past(&[(w.kilograms, AMOUNT), (w.celsius, CELSIUS)]),
        ReadingSet::Steam(s) => first_past(&[(s.kilograms, AMOUNT), (s.kilopascals, KILOPASCALS)]),
        ReadingSet::Wastewater(w) => first_past(&[
            (w.cubic_metres, CUBIC_METRES),
            (w.inlet, COD),
            (w.outlet, COD),
            (w.sludge, AMOUNT),
            (w.recovered, AMOUNT),
        ]),
    }
}
