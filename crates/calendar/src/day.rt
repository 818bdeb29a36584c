ghost use Rattle.std.specs.Prelude.{◌≡◌, T, IfErr};
ghost use Rattle.refusal.specs.Said.{said};
ghost use Rattle.calendar.specs.Calendar.{day_lawful};
ghost use Rattle.calendar.specs.Faults.{refusal_of, day_in};
ghost use Rattle.calendar.specs.Months.{InMonth};
ghost use Rattle.calendar.specs.declared.fault.DateFault.TheVariants.{DayUnlawful};

use crate::fault::DateFault;
use crate::month::Month;
use crate::year::Year;

// A day that its year has, counted from 1.
#[derive(Clone, Copy, PartialEq, Debug)]
pub struct Day {
    year: Year,
    number: u16,
    ghost lawful: { T (day_lawful year.number number) },
}

impl Day {
    pub fn new(year: Year, number: u16) -> Result<Day, DateFault>
        ensures gives { said {T = Day} (λ d. (d.year.number, d.number)) refusal_of result ≡ day_in year.number number }
        ensures faults { IfErr result (λ e. e ≡ DayUnlawful) }
    {
        if (1..=year.days()).contains(&number) {
            Ok(Day { year, number })
        } else {
            Err(DateFault::DayUnlawful)
        }
    }

    pub fn year(self) -> Year
        ensures { result.number ≡ self.year.number }
    {
        self.year
    }

    // A word for the number, where `u16::from` would give none.
    pub fn number(self) -> u16
        ensures { result ≡ self.number }
    {
        self.number
    }

    pub fn month(self) -> Month
        ensures { InMonth self.year.number self.number result.number }
    {
        Month::of(self.year, self.number)
    }
}
