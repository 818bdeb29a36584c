// What the programs that run generated cases share: their input, and rows of a plant list.
#![tactic(auto)]

mod fault;
mod input;

pub use fault::InputFault;
pub use input::{Input, NO_ROW, ROWS};
