ghost use Rattle.std.specs.Prelude.{◌≡◌, Err};
ghost use Rattle.commands.specs.declared.fault.Reason.TheVariants.{NoYear};
ghost use Rattle.desk.specs.declared.failed.Failed.TheVariants.{Error};

use crate::failed::Failed;
use commands::{Command, Reason};
use factor::PlantRow;
use refusal::Refusal;
use sources::{Mode, Sources};
use std::alloc::Global;

// What answers commands: the sources alone, or an open book with them.
pub trait Desk {
    // Adds a row to the plant's list.
    fn push(&mut self, row: PlantRow) -> Result<usize, Refusal>;

    // Which source later offers ask.
    fn choose(&mut self, mode: Mode);

    // The answer to a command about the book.
    fn answer(&mut self, heap: Global, command: Command) -> Result<String, Failed>;
}

// Before a year is open.
#[derive(Drop)]
pub struct Unopened<'r> {
    pub sources: Sources<'r>,
}

impl Desk for Unopened<'_> {
    fn push(&mut self, row: PlantRow) -> Result<usize, Refusal> {
        Ok(self.sources.pair.measured.push(row)?)
    }

    fn choose(&mut self, mode: Mode)
        ensures { self.new.sources.mode ≡ mode }
    {
        self.sources.mode = mode;
    }

    fn answer(&mut self, heap: Global, command: Command) -> Result<String, Failed>
        ensures { result ≡ Err (Error NoYear) }
    {
        Err(Failed::Error(Reason::NoYear))
    }
}
