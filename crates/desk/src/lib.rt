// What answers the ledger's commands: an open book with its sources, or, before a year is open, the sources alone.
#![tactic(auto)]

mod desk;
mod failed;
mod open;
mod records;

pub use desk::{Desk, Unopened};
pub use failed::Failed;
pub use open::OpenBook;
pub use records::{short, without_book};
