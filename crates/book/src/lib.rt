// A year's book: frames are offered to it and booked, entries withdrawn, months held, released and closed, and its lines read.
#![tactic(auto)]

mod book;
mod total;

pub use book::Book;
pub use total::Total;
