ghost use Rattle.std.specs.Prelude.{◌≡◌};
ghost use Rattle.refusal.specs.Said.{said};
ghost use Rattle.record.specs.Faults.{refusal_of};
ghost use Rattle.record.specs.Records.{checked, record_in};
ghost use Rattle.record.specs.Views.{raw_of};

use crate::fault::RecordFault;
use crate::heading::Heading;
use crate::raw::RawRecord;
use crate::record::Record;
use reading::{ReadingFault, ReadingSet};

impl RawRecord {
    // The record stated, if it is lawful.
    pub fn check(self) -> Result<Record, RecordFault>
        ensures { said raw_of refusal_of result ≡ checked self }
    {
        let heading = Heading::new(self.year, self.day, self.kind, self.item, self.tier)?;
        Record::new(heading, self.readings, self.share)
    }
}

// The record that a frame holds.
pub fn read(frame: &[u8]) -> Result<Record, RecordFault>
    ensures { said raw_of refusal_of result ≡ record_in frame.now }
{
    let fields = frame::read(frame)?;
    let heading = Heading::new(
        fields.year(),
        fields.day(),
        fields.kind,
        fields.item,
        fields.tier as char,
    )?;
    let set = ReadingSet::read(heading.kind.shape(), fields.readings).ok_or(
        ReadingFault::SetWrong,
    )?;
    Record::new(heading, set, fields.share())
}
