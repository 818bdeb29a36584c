ghost use Rattle.std.specs.Prelude.{◌≡◌};
ghost use Rattle.statement.specs.Faults.{refusal_of};

use refusal::{Layer, Refusal};

// The buffer has fewer bytes than what is to be written into it.
#[derive(Clone, Copy, PartialEq, Eq, Debug)]
pub struct BufferShort {
    pub needed: usize,
}

impl From<BufferShort> for Refusal {
    ghost from_gives = { λ e r. r ≡ refusal_of e };

    // Number 20 of the book layer; the place is how many bytes are needed.
    fn from(fault: BufferShort) -> Refusal {
        Refusal {
            layer: Layer::Book,
            number: 20,
            place: fault.needed,
        }
    }
}
