// The ledger's commands, one to a line of text, and what is wrong with a line that is none.
#![tactic(auto)]

mod command;
mod fault;
mod readings;
mod words;

pub use command::{Command, Stated, parse};
pub use fault::{Fault, Reason};
pub use words::{bytes, number};
