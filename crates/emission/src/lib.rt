// Exact emissions in whole parts of a gram, and their grams, rounded once.
#![tactic(auto)]

mod entry;
mod fault;
mod figures;
mod formulas;
mod laws;
mod measured;
mod parts;
mod products;

pub use entry::Entry;
pub use fault::EmissionFault;
pub use figures::figures_stand;
pub use laws::parts_stand;
pub use measured::entry_of;
