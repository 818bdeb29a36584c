// A set from its bytes.
ghost use Rattle.std.specs.Prelude.{◌≡◌, ◌*◌, T, IfSome};
ghost use Rattle.reading.specs.Limited.{lawful_set};
ghost use Rattle.reading.specs.Layout.{count, set_bytes, set_in, shape_of};

use crate::binary32::from_bytes;
use crate::sets::{ReadingSet, Shape, Steam, Wastewater, Water};

impl Shape {
    // How many bytes a set of this shape takes.
    pub fn size(self) -> usize
        ensures { result ≡ 4 * count self }
    {
        match self {
            Shape::Amount => 4,
            Shape::Water => 8,
            Shape::Steam => 8,
            Shape::Wastewater => 20,
        }
    }
}

impl ReadingSet {
    pub fn shape(&self) -> Shape
        ensures { result ≡ shape_of self.now }
    {
        match self {
            ReadingSet::Amount(_) => Shape::Amount,
            ReadingSet::Water(_) => Shape::Water,
            ReadingSet::Steam(_) => Shape::Steam,
            ReadingSet::Wastewater(_) => Shape::Wastewater,
        }
    }

    // The set of this shape that the bytes hold, unless their number is wrong.
    pub fn read(shape: Shape, bytes: &[u8]) -> Option<ReadingSet>
        ensures value { result ≡ set_in shape bytes.now }
        ensures back { IfSome result (λ set. T (lawful_set set) → set_bytes set ≡ bytes.now) }
    {
        if bytes.len() != shape.size() {
            return None;
        }
        let (readings, _) = bytes.as_chunks::<4>();
        let set = match shape {
            Shape::Amount => {
                let [x] = readings.as_array::<1>()?.map(from_bytes);
                ReadingSet::Amount(x)
            }
            Shape::Water => {
                let [kilograms, celsius] = readings.as_array::<2>()?.map(from_bytes);
                ReadingSet::Water(Water { kilograms, celsius })
            }
            Shape::Steam => {
                let [kilograms, kilopascals] = readings.as_array::<2>()?.map(from_bytes);
                ReadingSet::Steam(Steam {
                    kilograms,
                    kilopascals,
                })
            }
            Shape::Wastewater => {
                let [cubic_metres, inlet, outlet, sludge, recovered] = readings
                    .as_array::<5>()?
                    .map(from_bytes);
                ReadingSet::Wastewater(Wastewater {
                    cubic_metres,
                    inlet,
                    outlet,
                    sludge,
                    recovered,
                })
            }
        };
        Some(set)
    }
}
