// The frame layer: a frame is a run of fields with rising tags.
// It is read into fields that borrow from it, and written from fields into a buffer.
#![tactic(auto)]

mod fault;
mod field;
mod fields;
mod reader;
mod tag;
mod writer;

pub use fault::FrameFault;
pub use fields::Fields;
pub use reader::{name, read};
pub use tag::{NoSuchTag, Tag};
pub use writer::{check_name, write};
