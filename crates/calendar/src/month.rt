ghost use Rattle.std.specs.Prelude.{◌≡◌, ◌&&◌, T, map, nat_le};
ghost use Rattle.std.specs.Option.{option_map};
ghost use Rattle.std.specs.Result.{result_ok};
ghost use Rattle.calendar.specs.Calendar.{day_lawful};
ghost use Rattle.calendar.specs.Months.{days_before, month_in, month_numbers, InMonth};

use crate::year::Year;

// The days before each month of a common year.
const COMMON: [u16; 12] = [0, 31, 59, 90, 120, 151, 181, 212, 243, 273, 304, 334];

// The days before each month of a leap year.
const LEAP: [u16; 12] = [0, 31, 60, 91, 121, 152, 182, 213, 244, 274, 305, 335];

// A month, January being 1: a number and no enum, since a day's month is counted.
#[derive(Clone, Copy, PartialEq, Debug)]
pub struct Month {
    number: u8,
    ghost lawful: { T (nat_le 1 number && nat_le number 12) },
}

// No month has the number.
#[derive(Clone, Copy, PartialEq, Eq, Debug)]
pub struct NoSuchMonth;

impl TryFrom<u8> for Month {
    type Error = NoSuchMonth;

    ghost use Rattle.calendar.specs.declared.month.Month.{Month};

    ghost try_from_gives = { λ n r. option_map {T = Month} (λ m. m.number) (result_ok r) ≡ month_in n };

    fn try_from(number: u8) -> Result<Month, NoSuchMonth> {
        if (1..=12).contains(&number) {
            Ok(Month { number })
        } else {
            Err(NoSuchMonth)
        }
    }
}

impl Month {
    // The months of a year, from January on.
    pub fn all() -> [Month; 12]
        ensures { map (λ m. m.number) result ≡ month_numbers }
    {
        [
            Month { number: 1 },
            Month { number: 2 },
            Month { number: 3 },
            Month { number: 4 },
            Month { number: 5 },
            Month { number: 6 },
            Month { number: 7 },
            Month { number: 8 },
            Month { number: 9 },
            Month { number: 10 },
            Month { number: 11 },
            Month { number: 12 },
        ]
    }

    // The month of a year that a day of that year lies in.
    pub(crate) fn of(year: Year, day: u16) -> Month
        requires { T (day_lawful year.number day) }
        ensures { InMonth year.number day result.number }
    {
        // Those months have begun that have fewer days before them than the day's number.
        let begun = days_before(year.is_leap()).partition_point(|before| *before < day);
        Month {
            number: begun as u8,
        }
    }

    // A word for the number, where `u8::from` would give none.
    pub fn number(self) -> u8
        ensures { result ≡ self.number }
    {
        self.number
    }
}

// The table of a year's kind.
fn days_before(is_leap: bool) -> [u16; 12]
    ensures { result ≡ days_before is_leap }
{
    if is_leap { LEAP } else { COMMON }
}
