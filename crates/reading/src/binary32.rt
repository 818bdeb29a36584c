// A reading's four bytes, high byte first.
ghost use Rattle.std.specs.Prelude.{◌≡◌, T};
ghost use Rattle.reading.specs.Dyadic.{clear};
ghost use Rattle.reading.specs.Wire.{word, decode, encode};
ghost use Rattle.reading.specs.Fields.{Meaning};

use std::num::{f32_from_bits_with_nan, f32_to_bits_with_nan};

// Every pattern is read and written, where `f32::from_be_bytes` and `to_be_bytes` ask for no NaN.
#[tactic(auto, using(crate::proofs::Pattern::meaning))]
pub fn from_bytes(bytes: [u8; 4]) -> f32
    ensures value { result ≡ decode bytes }
    ensures back { T (clear result) → encode result ≡ bytes }
    ensures meaning { Meaning (word bytes) result }
{
    f32_from_bits_with_nan(u32::from_be_bytes(bytes))
}

#[tactic(auto, using(crate::proofs::Round::decode_encode))]
pub fn to_bytes(x: f32) -> [u8; 4]
    ensures value { result ≡ encode x }
    ensures back { decode result ≡ x }
{
    f32_to_bits_with_nan(x).to_be_bytes()
}
