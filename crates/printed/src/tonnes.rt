ghost use Rattle.std.specs.Prelude.{◌≡◌, ◌/◌, ◌%◌, ◌<ℤ◌, ◌↔◌, IsTrue, pos, unsigned_abs};
ghost use Rattle.printed.specs.Text.{digit, six_digits};

const GRAMS_PER_TONNE: u128 = 1_000_000;

// Grams, to be printed as tonnes with six decimals; below zero where more was sold than emitted.
#[derive(Clone, Copy, PartialEq, Eq, Debug)]
pub struct Tonnes(i128);

impl From<u64> for Tonnes {
    ghost from_gives = { λ grams t. t.0 ≡ pos grams };

    fn from(grams: u64) -> Tonnes {
        Tonnes(i128::from(grams))
    }
}

impl From<i64> for Tonnes {
    ghost from_gives = { λ grams t. t.0 ≡ grams };

    fn from(grams: i64) -> Tonnes {
        Tonnes(i128::from(grams))
    }
}

// The last decimal digit.
fn digit(n: u128) -> u8
    ensures { result ≡ digit n }
{
    b'0' + (n % 10) as u8
}

impl Tonnes {
    pub(crate) fn is_negative(self) -> bool
        ensures { IsTrue result ↔ (self.0 <ℤ pos 0) }
    {
        self.0 < 0
    }

    // Whole tonnes, whatever the sign.
    pub(crate) fn whole(self) -> u128
        ensures { result ≡ unsigned_abs self.0 / 1000000 }
    {
        self.0.unsigned_abs() / GRAMS_PER_TONNE
    }

    // The digits of the grams beyond the whole tonnes.
    pub(crate) fn digits(self) -> [u8; 6]
        ensures { result ≡ six_digits (unsigned_abs self.0 % 1000000) }
    {
        let grams = self.0.unsigned_abs() % GRAMS_PER_TONNE;
        [
            digit(grams / 100_000),
            digit(grams / 10_000),
            digit(grams / 1_000),
            digit(grams / 100),
            digit(grams / 10),
            digit(grams),
        ]
    }
}
