// The record layer: what a meter's frame records, read from a frame and written as one.
// A record is lawful by its type; a raw record is what a host states, lawful or not.
#![tactic(auto)]

mod fault;
mod heading;
mod raw;
mod reader;
mod record;
mod writer;

pub use fault::RecordFault;
pub use raw::RawRecord;
pub use reader::read;
pub use record::Record;
pub use writer::write;
