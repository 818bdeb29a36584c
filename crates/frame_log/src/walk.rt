ghost use Rattle.std.specs.Prelude.{ℕ, Bool, List, ◌++◌, Some, codes};
ghost use Rattle.std.specs.Fmt.{decimal};
ghost use Rattle.frame_log.specs.Log.{Tallied};

use crate::frames::{CutOff, Frames};
use std::fmt;

// How many frames of a log were taken and how many refused.
#[derive(Clone, Copy, PartialEq, Eq, Debug)]
pub struct Counts {
    pub taken: usize,
    pub refused: usize,
}

impl fmt::Display for Counts {
    ghost output = { λ c. Some (decimal c.taken ++ codes " " ++ decimal c.refused) };

    fn fmt<W: fmt::Write>(&self, f: &mut fmt::Formatter<W>) -> fmt::Result {
        write!(f, "{} {}", self.taken, self.refused)
    }
}

// What takes or refuses frames: a trait, since no public call has a condition, and a call of a closure has one.
pub trait Taker {
    // What a frame may be answered, and what the taker then is.
    ghost answers: { Self → List ℕ → Bool → Self → Type 0 };

    fn takes(&mut self, frame: &[u8]) -> bool
        ensures { answers self.old frame.now result self.new };
}

// Hands every frame to a taker; what the end cuts off counts as one refused.
pub fn tally<T: Taker>(frames: &[u8], taker: &mut T) -> Counts
    ensures { Tallied T.Taker.answers frames.now taker.old result.taken result.refused taker.new }
{
    let mut taken = 0;
    let mut refused = 0;
    for frame in Frames::new(frames) {
        // A match: a closure that borrows the taker, or a second condition after `if let`, hides from the proof what was handed over.
        let is_taken = match frame {
            Ok(frame) => taker.takes(frame),
            Err(CutOff) => false,
        };
        if is_taken {
            taken += 1;
        } else {
            refused += 1;
        }
    }
    Counts { taken, refused }
}
