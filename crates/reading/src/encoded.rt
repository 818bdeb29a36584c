// What a set takes in a frame.
ghost use Rattle.std.specs.Prelude.{◌≡◌, ◌≤◌, true, length};
ghost use Rattle.std.specs.List.{flat_map, AllByRecursion};
ghost use Rattle.std.specs.Float.{binary32};
ghost use Rattle.std.specs.Float.Ieee.{fits};
ghost use Rattle.reading.specs.Wire.{encode};

use crate::binary32::to_bytes;
use arrayvec::ArrayVec;

mod content;

// The bytes of a set, the first `length` of `bytes`; no `ArrayVec`, since that is not `Copy`.
#[derive(Clone, Copy, PartialEq, Eq, Debug)]
pub struct SetBytes {
    bytes: [u8; 20],
    length: usize,
    ghost within: { length ≤ 20 },
}

// The readings' bytes one after another; the largest set has five readings.
fn joined(readings: &[f32]) -> ArrayVec<u8, 20>
    requires { length readings.now ≤ 5 }
    ensures bytes { result.items ≡ flat_map encode readings.now }
    ensures held { AllByRecursion (λ x. fits binary32 x ≡ true) readings.now }
{
    let mut bytes = ArrayVec::new();
    for x in readings {
        bytes.try_extend_from_slice(&to_bytes(*x)).unwrap();
    }
    bytes
}
