// A year's book opened with the law that it keeps over every list of calls, and lists of calls replayed.
#![tactic(auto)]

mod call;
mod opening;
mod replaying;

pub use call::Call;
pub use opening::open;
pub use replaying::replay;
