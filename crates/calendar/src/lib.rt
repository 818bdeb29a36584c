// A year, a day that is lawful in its year, and the month that the day lies in.
// Every other crate takes its dates from here, so that none holds a day that its year does not have.
#![tactic(auto)]

mod day;
mod fault;
mod month;
mod stands;
mod year;

pub use day::Day;
pub use fault::DateFault;
pub use month::{Month, NoSuchMonth};
pub use stands::calendar_stands;
pub use year::Year;
