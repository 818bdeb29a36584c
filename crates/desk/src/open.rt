ghost use Rattle.std.specs.Prelude.{◌≡◌, Some};
ghost use Rattle.months.specs.declared.state.Event.TheVariants.{Hold as HoldEvent, Release as ReleaseEvent, Close as CloseEvent};
ghost use Rattle.book.specs.Views.{contents_of};
ghost use Rattle.journal.specs.Calls.{offer, withdraw, turn};
ghost use Rattle.sources.specs.Sources.{table_of};
ghost use Rattle.desk.specs.Done.{Done, call_of, byte_of};

use crate::desk::Desk;
use crate::failed::Failed;
use crate::records::small;
use book::Book;
use commands::{Command, Reason};
use factor::PlantRow;
use frame_log::Counts;
use printed::year_text;
use refusal::Refusal;
use shown::Hex;
use sources::{Mode, Sources};
use std::alloc::Global;

// Most bytes that a statement's buffer has.
const BYTES: u32 = 1_000_000;

// A book with the sources that its offers ask, and how many frames it took and refused since it was opened.
#[derive(Drop)]
pub struct OpenBook<'d, 'b, 'r> {
    pub book: &'d mut Book<'b>,
    pub counts: &'d mut Counts,
    pub sources: Sources<'r>,
}

impl OpenBook<'_, '_, '_> {
    fn offer(&mut self, heap: Global, frame: &[u8]) -> Result<String, Failed>
        ensures { Done (contents_of self.old.book.now) (contents_of self.new.book.now) (Some (offer frame.now (table_of self.old.sources))) }
    {
        match self.book.offer(frame, &mut self.sources) {
            Ok(booked) => {
                self.counts.taken = self.counts.taken.saturating_add(1);
                Ok(format!(in heap; "taken {} {}", booked.number, booked.grams)?)
            }
            Err(fault) => {
                self.counts.refused = self.counts.refused.saturating_add(1);
                Err(Failed::Refused(fault.into()))
            }
        }
    }

    fn withdraw(&mut self, heap: Global, number: u32) -> Result<String, Failed>
        ensures { Done (contents_of self.old.book.now) (contents_of self.new.book.now) (Some (withdraw number)) }
    {
        let booked = self.book.withdraw(number as usize).map_err(Refusal::from)?;
        Ok(format!(in heap; "withdrawn {} {}", booked.number, booked.grams)?)
    }

    fn hold(&mut self, heap: Global, month: u32) -> Result<String, Failed>
        ensures { Done (contents_of self.old.book.now) (contents_of self.new.book.now) (Some (turn (byte_of month) HoldEvent)) }
    {
        let month = self.book.hold(small(month)).map_err(Refusal::from)?;
        Ok(format!(in heap; "held {month}")?)
    }

    fn release(&mut self, heap: Global, month: u32) -> Result<String, Failed>
        ensures { Done (contents_of self.old.book.now) (contents_of self.new.book.now) (Some (turn (byte_of month) ReleaseEvent)) }
    {
        let month = self.book.release(small(month)).map_err(Refusal::from)?;
        Ok(format!(in heap; "released {month}")?)
    }

    fn close(&mut self, heap: Global, month: u32) -> Result<String, Failed>
        ensures { Done (contents_of self.old.book.now) (contents_of self.new.book.now) (Some (turn (byte_of month) CloseEvent)) }
    {
        let month = self.book.close(small(month)).map_err(Refusal::from)?;
        Ok(format!(in heap; "closed {month}")?)
    }

    fn line(&self, heap: Global, month: u32, line: u32) -> Result<String, Failed> {
        let figure = self
            .book
            .line(small(month), small(line))
            .map_err(Refusal::from)?;
        Ok(format!(in heap; "line {month} {line} {} {}", figure.count, figure.grams)?)
    }

    fn year_line(&self, heap: Global, line: u32) -> Result<String, Failed> {
        let figure = self.book.year_line(small(line)).map_err(Refusal::from)?;
        Ok(format!(in heap; "yearline {line} {} {}", figure.count, figure.grams)?)
    }

    fn total(&self, heap: Global) -> Result<String, Failed> {
        let total = self.book.total();
        Ok(format!(in heap; "total {} {}", total.count, total.grams)?)
    }

    fn statement(&self, heap: Global, bytes: u32) -> Result<String, Failed> {
        if bytes > BYTES {
            return Err(Failed::Error(Reason::TooManyBytes));
        }
        let mut buffer = vec![in heap; 0u8; bytes as usize]?;
        let length = statement::write(self.book, buffer.as_mut_slice()).map_err(Refusal::from)?;
        // The statement is never longer than the buffer.
        let bytes = buffer.as_slice().get(..length).unwrap_or(&[]);
        Ok(format!(in heap; "statement {}", Hex(bytes))?)
    }

    fn print(&self, heap: Global) -> Result<String, Failed> {
        let text = year_text(self.book, *self.counts);
        let lines = str::from_utf8(text.as_slice()).unwrap_or("");
        Ok(format!(in heap; "{}", lines.trim_end())?)
    }
}

impl Desk for OpenBook<'_, '_, '_> {
    fn push(&mut self, row: PlantRow) -> Result<usize, Refusal> {
        Ok(self.sources.pair.measured.push(row)?)
    }

    fn choose(&mut self, mode: Mode)
        ensures { self.new.sources.mode ≡ mode }
    {
        self.sources.mode = mode;
    }

    fn answer(&mut self, heap: Global, command: Command) -> Result<String, Failed>
        ensures { Done (contents_of self.old.book.now) (contents_of self.new.book.now) (call_of (table_of self.old.sources) command) }
    {
        match command {
            Command::Offer(frame) => self.offer(heap, frame.as_slice()),
            Command::Withdraw(number) => self.withdraw(heap, number),
            Command::Hold(month) => self.hold(heap, month),
            Command::Release(month) => self.release(heap, month),
            Command::Close(month) => self.close(heap, month),
            Command::Line { month, line } => self.line(heap, month, line),
            Command::YearLine(line) => self.year_line(heap, line),
            Command::Total => self.total(heap),
            Command::Statement(bytes) => self.statement(heap, bytes),
            Command::Print => self.print(heap),
            // What is answered without a book.
            Command::Open { .. }
            | Command::Rows(_)
            | Command::Row(_)
            | Command::Source(_)
            | Command::Month { .. }
            | Command::Record(_)
            | Command::Quantities(_)
            | Command::Name(_)
            | Command::Frame(_) => Err(Failed::Error(Reason::UnknownCommand)),
        }
    }
}
