// A year as it is printed: the frames taken and refused, the lines and the net total.
#![tactic(auto)]

mod log;
mod piece;
mod text;
mod tonnes;

pub use log::{LONGEST, print_log};
pub use text::{YearText, year_text};
pub use tonnes::Tonnes;
