ghost use Rattle.std.specs.Prelude.{◌≡◌};
ghost use Rattle.refusal.specs.Said.{said};
ghost use Rattle.reading.specs.Refusals.{refusal_of};
ghost use Rattle.reading.specs.Limited.{readings_of, checked_set};
ghost use Rattle.reading.specs.Quantity.{quantities_of, wholes_of, Rounded};

use super::Readings;
use crate::fault::ReadingFault;
use crate::limits::{AMOUNT, CELSIUS, COD, CUBIC_METRES, KILOPASCALS, first_unlawful};
use crate::sets::{Quantities, ReadingSet, SteamQuantities, WastewaterQuantities, WaterQuantities};

impl Readings {
    // Refuses the set where a reading is unlawful, and names the first.
    pub fn new(set: ReadingSet) -> Result<Readings, ReadingFault>
        ensures { said (λ x. x.set) refusal_of result ≡ checked_set set }
    {
        // A match and no `map_or`, which would make the readings before it is known that they are lawful.
        match first_unlawful(set) {
            Some(index) => Err(ReadingFault::Unlawful { index }),
            None => Ok(Readings { set }),
        }
    }

    pub fn set(self) -> ReadingSet
        ensures { result ≡ self.set }
    {
        self.set
    }

    // The nearest whole number to each reading, a temperature in hundredths: the limits of `first_unlawful`, in structs of their own.
    pub fn quantities(self) -> Quantities
        ensures value { result ≡ quantities_of self.set }
        ensures rounded { Rounded (readings_of self.set) (wholes_of result) }
    {
        match self.set {
            ReadingSet::Amount(x) => Quantities::Amount(AMOUNT.quantity(x)),
            ReadingSet::Water(w) => Quantities::Water(WaterQuantities {
                kilograms: AMOUNT.quantity(w.kilograms),
                hundredths: CELSIUS.quantity(w.celsius),
            }),
            ReadingSet::Steam(s) => Quantities::Steam(SteamQuantities {
                kilograms: AMOUNT.quantity(s.kilograms),
                kilopascals: KILOPASCALS.quantity(s.kilopascals),
            }),
            ReadingSet::Wastewater(w) => Quantities::Wastewater(WastewaterQuantities {
                cubic_metres: CUBIC_METRES.quantity(w.cubic_metres),
                inlet: COD.quantity(w.inlet),
                outlet: COD.quantity(w.outlet),
                sludge: AMOUNT.quantity(w.sludge),
                recovered: AMOUNT.quantity(w.recovered),
            }),
        }
    }
}
