use crate::fault::Reason;
use arrayvec::ArrayVec;
use reading::{ReadingSet, Steam, Wastewater, Water};

// A reading in eight hexadecimal digits.
fn reading(word: &str) -> Result<f32, Reason> {
    let mut bytes = [0; 4];
    hex::decode_to_slice(word, &mut bytes).map_err(|_| Reason::NotReadings)?;
    Ok(reading::from_bytes(bytes))
}

// Readings with commas between them; their number picks the set, and of two the item, 1 for water.
pub(crate) fn readings(word: &str, item: u32) -> Result<ReadingSet, Reason> {
    let mut parts: ArrayVec<f32, 5> = ArrayVec::new();
    for part in word.split(',') {
        parts
            .try_push(reading(part)?)
            .map_err(|_| Reason::NotReadings)?;
    }
    match parts.as_slice() {
        [x] => Ok(ReadingSet::Amount(*x)),
        [kilograms, celsius] if item == 1 => Ok(ReadingSet::Water(Water {
            kilograms: *kilograms,
            celsius: *celsius,
        })),
        [kilograms, kilopascals] => Ok(ReadingSet::Steam(Steam {
            kilograms: *kilograms,
            kilopascals: *kilopascals,
        })),
        [cubic_metres, inlet, outlet, sludge, recovered] => Ok(ReadingSet::Wastewater(
            Wastewater {
                cubic_metres: *cubic_metres,
                inlet: *inlet,
                outlet: *outlet,
                sludge: *sludge,
                recovered: *recovered,
            },
        )),
        _ => Err(Reason::NotReadings),
    }
}
