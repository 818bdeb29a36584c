// How bytes, readings and quantities are shown as text.
#![tactic(auto)]

mod text;

pub use text::{Bits, Hex, OrDash, Whole};
