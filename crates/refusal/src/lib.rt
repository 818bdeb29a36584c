// What every refusal of the ledger says: which layer refuses, by which number, and where.
#![tactic(auto)]

ghost use Rattle.std.specs.Prelude.{◌≡◌, Some, codes};
ghost use Rattle.refusal.specs.Words.{word, refusal_text};

use std::fmt;

// The layers of the ledger, from the bytes of a frame to the year's book.
#[derive(Clone, Copy, PartialEq, Eq, Debug)]
pub enum Layer {
    Frame,
    Record,
    Factor,
    Book,
}

impl Layer {
    // The layer's name as programs print it.
    pub fn word(self) -> &'static str
        ensures { result.now ≡ word self }
    {
        match self {
            Layer::Frame => "frame",
            Layer::Record => "record",
            Layer::Factor => "factor",
            Layer::Book => "book",
        }
    }
}

impl fmt::Display for Layer {
    ghost output = { λ layer. Some (word layer) };

    fn fmt<W: fmt::Write>(&self, f: &mut fmt::Formatter<W>) -> fmt::Result {
        f.write_str(self.word())
    }
}

// One refusal; what its place counts depends on the number.
#[derive(Clone, Copy, PartialEq, Eq, Debug)]
pub struct Refusal {
    pub layer: Layer,

    // The rules and the programs name a refusal by its number; in each layer a fault is an enum.
    pub number: u8,
    pub place: usize,
}

impl fmt::Display for Refusal {
    ghost output = { λ refusal. Some (refusal_text refusal) };

    fn fmt<W: fmt::Write>(&self, f: &mut fmt::Formatter<W>) -> fmt::Result {
        write!(f, "refused {} {} {}", self.layer, self.number, self.place)
    }
}
