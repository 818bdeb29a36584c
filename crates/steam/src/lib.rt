// The enthalpy of saturated steam at an absolute pressure.
// No other crate holds the table, so that another kind of steam can join here.
#![tactic(auto)]

mod line;
mod stands;
mod table;

pub use line::{Enthalpy, saturated};
pub use stands::steam_stands;
