ghost use Rattle.std.specs.Prelude.{◌≡◌};
ghost use Rattle.months.specs.Lines.{line_number};
ghost use Rattle.months.specs.States.{made};
ghost use Rattle.months.specs.Accounts.{new_account, line_at, more, less, with_line, with_state, account_after};

use crate::line::Line;
use crate::state::{Event, State};

// How many entries stand in a line, and their grams.
#[derive(Clone, Copy, PartialEq, Debug)]
pub struct Figure {
    pub count: u32,
    pub grams: u64,
}

// A month's state and its lines.
#[derive(Clone, Copy)]
pub struct Account {
    state: State,

    // At the place of each line in `Line`.
    lines: [Figure; 7],
}

// An entry of so many grams booked in a line, or withdrawn from it, or an event.
#[derive(Clone, Copy)]
pub enum Change {
    Book(Line, u64),
    Withdraw(Line, u64),
    Turn(Event),
}

impl Figure {
    // With one entry of so many grams more.
    fn more(self, grams: u64) -> Figure
        ensures { result ≡ more self grams }
    {
        Figure {
            count: self.count.saturating_add(1),
            grams: self.grams.saturating_add(grams),
        }
    }

    // With one entry of so many grams less.
    fn less(self, grams: u64) -> Figure
        ensures { result ≡ less self grams }
    {
        Figure {
            count: self.count.saturating_sub(1),
            grams: self.grams.saturating_sub(grams),
        }
    }
}

impl Account {
    // An open month without entries.
    pub(crate) fn new() -> Account
        ensures { result ≡ new_account }
    {
        Account {
            state: State::Open,
            lines: [Figure { count: 0, grams: 0 }; 7],
        }
    }

    pub(crate) fn state(self) -> State
        ensures { result ≡ self.state }
    {
        self.state
    }

    pub(crate) fn figure(self, line: Line) -> Figure
        ensures { result ≡ line_at self (line_number line) }
    {
        self.lines[line as usize]
    }

    fn with_figure(self, line: Line, figure: Figure) -> Account
        ensures { result ≡ with_line self (line_number line) figure }
    {
        let mut lines = self.lines;
        lines[line as usize] = figure;
        Account { lines, ..self }
    }

    fn with_state(self, state: State) -> Account
        ensures { result ≡ with_state self state }
    {
        Account { state, ..self }
    }

    // The state that an event makes of this one; none where the state forbids it.
    fn turned(self, event: Event) -> Option<State>
        ensures { result ≡ made self.state event }
    {
        match (self.state, event) {
            (State::Open, Event::Hold) => Some(State::Held),
            (State::Held, Event::Release) => Some(State::Open),
            (State::Held, Event::Close) => Some(State::Closed),
            _ => None,
        }
    }

    // The month after a change: booking wants an open month, withdrawing an open or held one; none where its state forbids it.
    pub(crate) fn after(self, change: Change) -> Option<Account>
        ensures { result ≡ account_after self change }
    {
        match change {
            Change::Book(line, grams) => match self.state {
                State::Open => Some(self.with_figure(line, self.figure(line).more(grams))),
                State::Held | State::Closed => None,
            },
            Change::Withdraw(line, grams) => match self.state {
                State::Open | State::Held => Some(self.with_figure(
                    line,
                    self.figure(line).less(grams),
                )),
                State::Closed => None,
            },
            Change::Turn(event) => Some(self.with_state(self.turned(event)?)),
        }
    }
}
