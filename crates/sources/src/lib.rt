// A plant list beside the printed table, and a choice which of them answers.
#![tactic(auto)]

mod choice;

pub use choice::{Mode, Sources};
