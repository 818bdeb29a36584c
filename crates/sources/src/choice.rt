ghost use Rattle.std.specs.Prelude.{◌≡◌};
ghost use Rattle.factor.specs.Questions.{asked_of};
ghost use Rattle.sources.specs.Sources.{mode_of, table_of, table_limited};

use factor::{Factor, LimitedSource, Pair, PlantList, Printed, Question, Source};

// Which source answers: the plant's list, the printed table, both by tier, or none.
#[derive(Clone, Copy, PartialEq, Eq, Debug)]
pub enum Mode {
    Listed,
    Printed,
    Both,
    Neither,
}

impl From<u8> for Mode {
    ghost from_gives = { λ n m. m ≡ mode_of n };

    fn from(number: u8) -> Mode {
        match number {
            0 => Mode::Listed,
            1 => Mode::Printed,
            2 => Mode::Both,
            _ => Mode::Neither,
        }
    }
}

// A plant list beside the printed table, and which of them is asked.
#[derive(Drop)]
pub struct Sources<'m> {
    pub pair: Pair<PlantList<'m>, Printed>,
    pub mode: Mode,
}

impl Source for Sources<'_> {
    ghost table = { table_of };

    fn ask(&mut self, question: Question) -> Option<Factor> {
        // A match and no dyn source: the table has to say which is asked.
        match self.mode {
            Mode::Listed => self.pair.measured.ask(question),
            Mode::Printed => self.pair.default.ask(question),
            Mode::Both => self.pair.ask(question),
            Mode::Neither => None,
        }
    }
}

impl LimitedSource for Sources<'_> {
    ghost limits = { λ s q. table_limited s (asked_of q) };
}
