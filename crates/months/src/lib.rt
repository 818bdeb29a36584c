// The twelve months of a year's book: each has a state, and figures in seven lines.
// A month's state says which changes it takes.
#![tactic(auto)]

mod account;
mod line;
mod state;
mod year;

pub use account::{Change, Figure};
pub use line::{Line, NoSuchLine};
pub use state::{Event, State, StateForbids};
pub use year::Months;
