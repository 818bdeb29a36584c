ghost use Rattle.std.specs.Prelude.{T};
ghost use Rattle.reading.specs.Limited.{lawful_set};

use crate::sets::ReadingSet;

mod checked;

// A set whose every reading is lawful.
#[derive(Clone, Copy)]
pub struct Readings {
    set: ReadingSet,
    ghost lawful: { T (lawful_set set) },
}
