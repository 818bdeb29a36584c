use factor::Factor;
use kind::{Kind, Tier};
use reading::Quantities;

// What is kept of a record: its exact emission is taken over these, and its grams are that emission rounded once.
#[derive(Clone, Copy)]
pub struct Entry {
    // Its number alone: the year is that of the book.
    pub day: u16,
    pub kind: Kind,
    pub tier: Tier,
    pub share: Option<u16>,
    pub quantities: Quantities,
    pub factor: Option<Factor>,
    pub grams: u64,
}
