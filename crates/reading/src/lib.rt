// Readings as they are delivered: binary32 numbers of IEEE 754.
// Which are lawful, which quantity each stands for, and their bytes.
#![tactic(auto)]

mod binary32;
mod decoded;
mod encoded;
mod examples;
mod fault;
mod laws;
mod limits;
mod quantities;
mod readings;
mod sets;

pub use binary32::{from_bytes, to_bytes};
pub use encoded::SetBytes;
pub use examples::examples_stand;
pub use fault::ReadingFault;
pub use laws::sets_stand;
pub use quantities::quantities_of;
pub use readings::Readings;
pub use sets::{
    Quantities, ReadingSet, Shape, Steam, SteamQuantities, Wastewater, WastewaterQuantities, Water,
    WaterQuantities,
};
