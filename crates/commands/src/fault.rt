ghost use Rattle.std.specs.Prelude.{◌≡◌, Some};
ghost use Rattle.commands.specs.Reasons.{reason_text};
ghost use Rattle.commands.specs.declared.fault.Fault.TheVariants.{Reason as ReasonFault, Memory};

use std::alloc::AllocError;
use std::fmt;

// Why a line is not done.
#[derive(Clone, Copy, PartialEq, Eq, Debug)]
pub enum Reason {
    UnknownCommand,
    WordCount,
    NotANumber,
    NumberTooLarge,
    NotHexadecimal,
    NotALetter,
    UnknownSource,
    NotReadings,
    TooManyEntries,
    TooManyRows,
    TooManyBytes,
    NoYear,
}

impl fmt::Display for Reason {
    ghost output = { λ reason. Some (reason_text reason) };

    fn fmt<W: fmt::Write>(&self, f: &mut fmt::Formatter<W>) -> fmt::Result {
        f.write_str(match self {
            Reason::UnknownCommand => "unknown command",
            Reason::WordCount => "wrong number of words",
            Reason::NotANumber => "not a number",
            Reason::NumberTooLarge => "number too large",
            Reason::NotHexadecimal => "not hexadecimal",
            Reason::NotALetter => "not a letter",
            Reason::UnknownSource => "unknown source",
            Reason::NotReadings => "not readings",
            Reason::TooManyEntries => "too many entries",
            Reason::TooManyRows => "too many rows",
            Reason::TooManyBytes => "too many bytes",
            Reason::NoYear => "no year is open",
        })
    }
}

// A line that is not done, or no memory to do it.
#[derive(Drop, Debug)]
pub enum Fault {
    Reason(Reason),
    Memory(AllocError),
}

impl From<Reason> for Fault {
    ghost from_gives = { λ e r. r ≡ ReasonFault e };

    fn from(e: Reason) -> Fault {
        Fault::Reason(e)
    }
}

impl From<AllocError> for Fault {
    ghost from_gives = { λ e r. r ≡ Memory e };

    fn from(e: AllocError) -> Fault {
        Fault::Memory(e)
    }
}
