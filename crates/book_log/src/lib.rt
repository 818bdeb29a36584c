// A log of frames: a year in two bytes, then frames, each after its length in two bytes, high bytes first.
// Its frames are offered to the book of that year, one after another.
#![tactic(auto)]

mod offering;
mod taker;

pub use frame_log::{Counts, frames_of, year_and_frames};
pub use offering::offer_frames;
