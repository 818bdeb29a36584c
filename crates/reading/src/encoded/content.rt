ghost use Rattle.std.specs.Prelude.{◌≡◌, ◌≤◌, Some, length};
ghost use Rattle.reading.specs.Layout.{shape_of, set_in, set_bytes, Held};
ghost use Rattle.reading.specs.Content.{content};

use super::{SetBytes, joined};
use crate::sets::ReadingSet;

impl SetBytes {
    // The bytes that fill a part of the room, or all of it.
    fn of(filled: &[u8]) -> SetBytes
        requires { length filled.now ≤ 20 }
        ensures { content result ≡ filled.now }
    {
        let length = filled.len();
        let mut bytes = [0; 20];
        bytes[..length].copy_from_slice(filled);
        SetBytes { bytes, length }
    }

    // The bytes alone, without the room that is left.
    pub fn as_slice(&self) -> &[u8]
        ensures { result.now ≡ content self.now }
    {
        &self.bytes[..self.length]
    }
}

impl ReadingSet {
    // The set's bytes: its readings in their order.
    #[tactic(auto, using(crate::proofs::Joined::wrote), unfolding(crate::specs::Layout::set_bytes))]
    pub fn bytes(&self) -> SetBytes
        ensures value { content result ≡ set_bytes self.now }
        ensures back { set_in (shape_of self.now) (content result) ≡ Some self.now }
        ensures held { Held self.now }
    {
        let bytes = match *self {
            ReadingSet::Amount(x) => joined(&[x]),
            ReadingSet::Water(w) => joined(&[w.kilograms, w.celsius]),
            ReadingSet::Steam(s) => joined(&[s.kilograms, s.kilopascals]),
            ReadingSet::Wastewater(w) => joined(&[
                w.cubic_metres,
                w.inlet,
                w.outlet,
                w.sludge,
                w.recovered,
            ]),
        };
        SetBytes::of(bytes.as_slice())
    }
}
