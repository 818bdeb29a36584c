ghost use Rattle.std.specs.Prelude.{◌≡◌};
ghost use Rattle.refusal.specs.Said.{said};
ghost use Rattle.record.specs.Faults.{refusal_of};
ghost use Rattle.kind.specs.Kinds.{numbers_of};
ghost use Rattle.record.specs.Records.{completed};
ghost use Rattle.record.specs.Rules.{share_lawful};
ghost use Rattle.kind.specs.Tiers.{letter_of};
ghost use Rattle.record.specs.Views.{head_of, raw_of};

use super::Record;
use crate::fault::RecordFault;
use crate::heading::Heading;
use crate::raw::RawRecord;
use calendar::Day;
use kind::{Kind, Tier};
use reading::{ReadingFault, ReadingSet, Readings};

// Most thousandths that a share can have.
const WHOLE: u16 = 1000;

fn share_fits(kind: Kind, share: Option<u16>) -> bool
    ensures { result ≡ share_lawful (numbers_of kind).0 share }
{
    match (kind, share) {
        (Kind::BoughtCo2, Some(loss)) => loss <= WHOLE,
        (Kind::BoughtCo2, None) => false,
        (Kind::CarbonateUsed(_), Some(purity)) => purity <= WHOLE,
        (_, None) => true,
        (_, Some(_)) => false,
    }
}

impl Record {
    // The record of a heading with its readings and share, if they fit it.
    pub(crate) fn new(
        heading: Heading,
        set: ReadingSet,
        share: Option<u16>,
    ) -> Result<Record, RecordFault>
        ensures { said raw_of refusal_of result ≡ completed (head_of heading) set share }
    {
        if set.shape() != heading.kind.shape() {
            return Err(ReadingFault::SetWrong.into());
        }
        let readings = Readings::new(set)?;
        if !share_fits(heading.kind, share) {
            return Err(RecordFault::ShareWrong);
        }
        Ok(Record {
            day: heading.day,
            kind: heading.kind,
            tier: heading.tier,
            share,
            readings,
        })
    }

    pub fn day(self) -> Day
        ensures year { result.year.number ≡ (raw_of self).year }
        ensures day { result.number ≡ (raw_of self).day }
    {
        self.day
    }

    pub fn kind(self) -> Kind
        ensures { result ≡ self.kind }
    {
        self.kind
    }

    pub fn tier(self) -> Tier
        ensures { letter_of result ≡ (raw_of self).tier }
    {
        self.tier
    }

    // The share in thousandths; a carbonate's may be missing.
    pub fn share(self) -> Option<u16>
        ensures { result ≡ (raw_of self).share }
    {
        self.share
    }

    pub fn readings(self) -> Readings
        ensures { result.set ≡ (raw_of self).readings }
    {
        self.readings
    }

    // The record in plain numbers.
    pub fn raw(self) -> RawRecord
        ensures { result ≡ raw_of self }
    {
        RawRecord {
            year: self.day.year().number(),
            day: self.day.number(),
            kind: self.kind.number(),
            item: self.kind.item(),
            tier: self.tier.into(),
            share: self.share,
            readings: self.readings.set(),
        }
    }
}
