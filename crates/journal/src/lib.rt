// The journal's rows, and what the calls of a year's book give and refuse.
#![tactic(auto)]

mod fault;
mod row;

pub use fault::BookFault;
pub use row::{Booked, JournalEntry};
