ghost use Rattle.std.specs.Prelude.{◌≡◌};
ghost use Rattle.refusal.specs.Said.{said};
ghost use Rattle.record.specs.Faults.{refusal_of};
ghost use Rattle.record.specs.Rules.{head_in};
ghost use Rattle.record.specs.Views.{head_of};

use crate::fault::RecordFault;
use calendar::{Day, Year};
use kind::{Kind, Tier};

// What stands before the readings of a record.
#[derive(Clone, Copy)]
pub struct Heading {
    pub day: Day,
    pub kind: Kind,
    pub tier: Tier,
}

impl Heading {
    // In numbers and a letter, since frames and hosts state any.
    pub fn new(year: u16, day: u16, kind: u8, item: u8, tier: char) -> Result<Heading, RecordFault>
        ensures { said head_of refusal_of result ≡ head_in year day kind item tier }
    {
        let year = Year::try_from(year)?;
        let day = Day::new(year, day)?;
        let kind = Kind::new(kind, item)?;
        let tier = Tier::try_from(tier)?;
        Ok(Heading { day, kind, tier })
    }
}
