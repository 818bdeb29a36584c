// What a record is about: its kind with its item, and the tier of its factor.
// Numbers and letters stand only at the edge; inside they are enums.
#![tactic(auto)]

mod fault;
mod kinds;
mod tiers;

pub use fault::KindFault;
pub use kinds::{Carbonate, Fuel, Heat, Kind};
pub use tiers::Tier;
