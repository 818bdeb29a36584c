// An open month takes bookings and withdrawals, a held one withdrawals alone, a closed one neither.
#[derive(Clone, Copy, PartialEq, Debug)]
pub enum State {
    Open,
    Held,
    Closed,
}

// A month's state forbids what is asked of it.
#[derive(Clone, Copy, PartialEq, Eq, Debug)]
pub struct StateForbids;

// What is done to a month's state.
#[derive(Clone, Copy, PartialEq, Debug)]
pub enum Event {
    Hold,
    Release,
    Close,
}
