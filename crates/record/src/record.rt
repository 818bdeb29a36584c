ghost use Rattle.std.specs.Prelude.{T};
ghost use Rattle.reading.specs.Layout.{shape_of};
ghost use Rattle.kind.specs.Kinds.{numbers_of};
ghost use Rattle.record.specs.Rules.{fitting};

use calendar::Day;
use kind::{Kind, Tier};
use reading::Readings;

mod parts;

// A lawful record: its day, kind, tier and readings are lawful by their types, and they fit together.
#[derive(Clone, Copy)]
pub struct Record {
    day: Day,
    kind: Kind,
    tier: Tier,
    share: Option<u16>,
    readings: Readings,
    ghost lawful: { T (fitting (numbers_of kind).0 (numbers_of kind).1 (shape_of readings.set) share) },
}
