ghost use Rattle.std.specs.Prelude.{◌≡◌, ◌-◌, is_ok};
ghost use Rattle.months.specs.Lines.{line_number};
ghost use Rattle.months.specs.Accounts.{new_months, state_at, figure_at, Changed};

use crate::account::{Account, Change, Figure};
use crate::line::Line;
use crate::state::{State, StateForbids};
use calendar::Month;

// The months of a year, from January on.
#[derive(Clone, Copy)]
pub struct Months {
    accounts: [Account; 12],
}

// Where a month's account stands: an array with an account to each month, and no loop.
fn place(month: Month) -> usize
    ensures { result ≡ month.number - 1 }
{
    usize::from(month.number()) - 1
}

impl Months {
    // Twelve open months without entries.
    pub fn new() -> Months
        ensures { result ≡ new_months }
    {
        Months {
            accounts: [Account::new(); 12],
        }
    }

    pub fn state(&self, month: Month) -> State
        ensures { result ≡ state_at self.now month.number }
    {
        self.accounts[place(month)].state()
    }

    pub fn figure(&self, month: Month, line: Line) -> Figure
        ensures { result ≡ figure_at self.now month.number (line_number line) }
    {
        self.accounts[place(month)].figure(line)
    }

    // Changes one month by a booking, a withdrawal or an event, unless the month's state forbids it; nothing is changed then.
    pub fn change(&mut self, month: Month, change: Change) -> Result<(), StateForbids>
        ensures { Changed self.old month.number change (is_ok result) self.new }
    {
        let at = place(month);
        self.accounts[at] = self.accounts[at].after(change).ok_or(StateForbids)?;
        Ok(())
    }
}
