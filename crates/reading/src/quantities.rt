ghost use Rattle.std.specs.Prelude.{◌≡◌};
ghost use Rattle.refusal.specs.Said.{said};
ghost use Rattle.reading.specs.Refusals.{refusal_of};
ghost use Rattle.reading.specs.Limited.{checked_set};
ghost use Rattle.reading.specs.Quantity.{counted};

use crate::fault::ReadingFault;
use crate::readings::Readings;
use crate::sets::{Quantities, ReadingSet};

// The quantities of any set of readings, or what is wrong with it.
pub fn quantities_of(set: ReadingSet) -> Result<Quantities, ReadingFault>
    ensures { said (λ q. q) refusal_of result ≡ counted (checked_set set) }
{
    Ok(Readings::new(set)?.quantities())
}
