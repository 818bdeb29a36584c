// Factors and the sources that hold them.
// A question names what a factor is asked for; a source answers it or holds nothing for it.
#![tactic(auto)]

mod fault;
mod plant;
mod printed;
mod question;
mod source;
mod stands;

pub use fault::FactorFault;
pub use plant::{PlantList, PlantRow};
pub use printed::Printed;
pub use question::{Class, Factor, Question};
pub use source::{LimitedSource, Nothing, Pair, Source};
pub use stands::factors_stand;
