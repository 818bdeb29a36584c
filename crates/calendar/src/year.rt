ghost use Rattle.std.specs.Prelude.{◌≡◌, T, IfErr};
ghost use Rattle.refusal.specs.Said.{said};
ghost use Rattle.calendar.specs.Calendar.{year_lawful, leap, days_in};
ghost use Rattle.calendar.specs.Faults.{refusal_of, year_in};
ghost use Rattle.calendar.specs.declared.fault.DateFault.TheVariants.{YearUnlawful};

use crate::fault::DateFault;

const FIRST_YEAR: u16 = 2000;

const LAST_YEAR: u16 = 2199;

// A year of the ledger.
#[derive(Clone, Copy, PartialEq, Debug)]
pub struct Year {
    number: u16,
    ghost lawful: { T (year_lawful number) },
}

impl TryFrom<u16> for Year {
    type Error = DateFault;

    ghost use Rattle.calendar.specs.declared.year.Year.{Year};

    ghost try_from_gives = { λ n r. (said {T = Year} (λ y. y.number) refusal_of r ≡ year_in n) × IfErr r (λ e. e ≡ YearUnlawful) };

    fn try_from(number: u16) -> Result<Year, DateFault> {
        if (FIRST_YEAR..=LAST_YEAR).contains(&number) {
            Ok(Year { number })
        } else {
            Err(DateFault::YearUnlawful)
        }
    }
}

impl Year {
    // A word for the number, where `u16::from` would give none.
    pub fn number(self) -> u16
        ensures { result ≡ self.number }
    {
        self.number
    }

    pub fn is_leap(self) -> bool
        ensures { result ≡ leap self.number }
    {
        let year = self.number;
        year % 4 == 0 && (year % 100 != 0 || year % 400 == 0)
    }

    pub fn days(self) -> u16
        ensures { result ≡ days_in self.number }
    {
        if self.is_leap() { 366 } else { 365 }
    }
}
