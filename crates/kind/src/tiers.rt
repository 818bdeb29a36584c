ghost use Rattle.std.specs.Prelude.{◌≡◌};
ghost use Rattle.refusal.specs.Said.{said};
ghost use Rattle.kind.specs.Faults.{refusal_of};
ghost use Rattle.kind.specs.Subject.{tier_in};
ghost use Rattle.kind.specs.Tiers.{letter_of};

use crate::fault::KindFault;

// Where a record's factor comes from: measured at the plant, or a default.
#[derive(Clone, Copy, PartialEq, Eq, Debug)]
pub enum Tier {
    Measured,
    Default,
}

impl TryFrom<char> for Tier {
    type Error = KindFault;

    ghost try_from_gives = { λ letter r. said letter_of refusal_of r ≡ tier_in letter };

    fn try_from(letter: char) -> Result<Tier, KindFault> {
        match letter {
            'M' => Ok(Tier::Measured),
            'D' => Ok(Tier::Default),
            _ => Err(KindFault::TierUnknown),
        }
    }
}

impl From<Tier> for char {
    ghost from_gives = { λ tier letter. letter ≡ letter_of tier };

    fn from(tier: Tier) -> char {
        match tier {
            Tier::Measured => 'M',
            Tier::Default => 'D',
        }
    }
}
