ghost use Rattle.std.specs.Prelude.{Some};
ghost use Rattle.case_input.specs.Text.{fault_text};

use std::error::Error;
use std::fmt;

// Why the input does not hold what is read off it.
#[derive(Clone, Copy, PartialEq, Eq, Debug)]
pub enum InputFault {
    CutOff,
    NoCharacter,
}

impl fmt::Display for InputFault {
    ghost output = { λ fault. Some (fault_text fault) };

    fn fmt<W: fmt::Write>(&self, f: &mut fmt::Formatter<W>) -> fmt::Result {
        f.write_str(match self {
            InputFault::CutOff => "the input is cut off",
            InputFault::NoCharacter => "no character",
        })
    }
}

impl Error for InputFault {}
