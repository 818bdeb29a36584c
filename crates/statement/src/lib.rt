// The statement of a year's book in bytes.
#![tactic(auto)]

mod fault;
mod laws;
mod writer;

pub use fault::BufferShort;
pub use laws::statements_stand;
pub use writer::{LENGTH, write};
