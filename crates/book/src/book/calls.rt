ghost use Rattle.std.specs.Prelude.{◌≡◌, true, MatchOption};
ghost use Rattle.refusal.specs.Said.{said};
ghost use Rattle.emission.specs.Entries.{Kept};
ghost use Rattle.months.specs.declared.state.Event.TheVariants.{Hold as HoldEvent, Release as ReleaseEvent, Close as CloseEvent};
ghost use Rattle.journal.specs.Calls.{offer as offer_call, withdraw as withdraw_call, turn as turn_call, a_month};
ghost use Rattle.journal.specs.Contents.{Step, New, Row, Marked, usable};
ghost use Rattle.journal.specs.Faults.{refusal_of};
ghost use Rattle.journal.specs.Runs.{Extends};
ghost use Rattle.book.specs.Views.{contents_of, booked_of};

use super::Book;
use calendar::{Month, Year};
use emission::entry_of;
use factor::Source;
use journal::{BookFault, Booked, JournalEntry};
use months::{Change, Event, Line, Months, State};
use record::read;
use rows::Rows;

// Most entries that a journal takes, however long its memory is.
const MOST_ENTRIES: usize = 60_000;

// `step` and `follows` speak of a call and not of a value, so that no type can hold them.
impl<'m> Book<'m> {
    // A new year: every month open, no entry. Of the memory the first 60,000 rows are used, or all if there are fewer.
    pub fn new(year: Year, memory: &'m mut [JournalEntry]) -> Book<'m>
        ensures new { New year.number (usable memory.old) (contents_of result) }
        ensures memory { result.journal.rows.ghost_name ≡ memory.entry.ghost_name }
        ensures rows { result.journal.rows.now ≡ memory.old }
    {
        Book {
            year,
            months: Months::new(),
            journal: Rows::new(memory),
        }
    }

    // Books what a frame records, with the factor that the source holds for it.
    pub fn offer<S: Source>(&mut self, frame: &[u8], source: &mut S) -> Result<Booked, BookFault>
        ensures step { Step (contents_of self.old) (offer_call frame.now (S.Source.table source.old)) (said booked_of refusal_of result) (contents_of self.new) }
        ensures follows { Extends (contents_of self.old) (offer_call frame.now (S.Source.table source.old)) (said booked_of refusal_of result) (contents_of self.new) }
        ensures same { S.Source.table source.new ≡ S.Source.table source.old }
        ensures memory { self.new.journal.rows.ghost_name ≡ self.old.journal.rows.ghost_name }
    {
        let lawful = read(frame)?;
        let entry = entry_of(lawful, source)?;
        let day = lawful.day();
        if day.year() != self.year {
            return Err(BookFault::OtherYear);
        }
        let month = day.month();
        let State::Open = self.months.state(month) else {
            return Err(BookFault::MonthNotOpen);
        };
        if self.journal.len() >= MOST_ENTRIES {
            return Err(BookFault::JournalFull);
        }
        let row = JournalEntry {
            entry,
            month,
            stands: true,
        };
        let number = self.journal.push(row)?;
        let grams = entry.grams;
        let line = Line::from(entry.kind);
        // The month is open, so it takes the booking.
        let _ = self.months.change(month, Change::Book(line, grams));
        Ok(Booked { number, grams })
    }

    // The row under a number, if its entry stands.
    fn standing(&self, number: usize) -> Option<JournalEntry>
        ensures { MatchOption result ((e : Kept) → Marked (contents_of self.now) number e → ⊥) (λ row. Row (contents_of self.now) number row × (row.stands ≡ true)) }
    {
        let at = number.checked_sub(1)?;
        let row = self.journal.get(at)?;
        row.stands.then_some(row)
    }

    // The entry stays in the journal and no longer stands.
    pub fn withdraw(&mut self, number: usize) -> Result<Booked, BookFault>
        ensures step { Step (contents_of self.old) (withdraw_call number) (said booked_of refusal_of result) (contents_of self.new) }
        ensures follows { Extends (contents_of self.old) (withdraw_call number) (said booked_of refusal_of result) (contents_of self.new) }
        ensures memory { self.new.journal.rows.ghost_name ≡ self.old.journal.rows.ghost_name }
    {
        let row = self.standing(number).ok_or(BookFault::NoStandingEntry)?;
        let month = row.month;
        let grams = row.entry.grams;
        let line = Line::from(row.entry.kind);
        self.months.change(month, Change::Withdraw(line, grams))?;
        let withdrawn = JournalEntry {
            stands: false,
            ..row
        };
        // The row is there: it was just read.
        let _ = self.journal.put(number - 1, withdrawn);
        Ok(Booked { number, grams })
    }

    // What the three calls below share; a month comes as a number, here and in the readers, since every number has its answer.
    fn turn(&mut self, month: u8, event: Event) -> Result<u8, BookFault>
        ensures step { Step (contents_of self.old) (turn_call month event) (said a_month refusal_of result) (contents_of self.new) }
        ensures follows { Extends (contents_of self.old) (turn_call month event) (said a_month refusal_of result) (contents_of self.new) }
        ensures memory { self.new.journal.rows.ghost_name ≡ self.old.journal.rows.ghost_name }
    {
        let named = Month::try_from(month)?;
        self.months.change(named, Change::Turn(event))?;
        Ok(month)
    }

    // Holds an open month: it takes no more frames; withdrawals are still taken.
    pub fn hold(&mut self, month: u8) -> Result<u8, BookFault>
        ensures step { Step (contents_of self.old) (turn_call month HoldEvent) (said a_month refusal_of result) (contents_of self.new) }
        ensures follows { Extends (contents_of self.old) (turn_call month HoldEvent) (said a_month refusal_of result) (contents_of self.new) }
        ensures memory { self.new.journal.rows.ghost_name ≡ self.old.journal.rows.ghost_name }
    {
        self.turn(month, Event::Hold)
    }

    // Opens a held month again.
    pub fn release(&mut self, month: u8) -> Result<u8, BookFault>
        ensures step { Step (contents_of self.old) (turn_call month ReleaseEvent) (said a_month refusal_of result) (contents_of self.new) }
        ensures follows { Extends (contents_of self.old) (turn_call month ReleaseEvent) (said a_month refusal_of result) (contents_of self.new) }
        ensures memory { self.new.journal.rows.ghost_name ≡ self.old.journal.rows.ghost_name }
    {
        self.turn(month, Event::Release)
    }

    // Closes a held month for good.
    pub fn close(&mut self, month: u8) -> Result<u8, BookFault>
        ensures step { Step (contents_of self.old) (turn_call month CloseEvent) (said a_month refusal_of result) (contents_of self.new) }
        ensures follows { Extends (contents_of self.old) (turn_call month CloseEvent) (said a_month refusal_of result) (contents_of self.new) }
        ensures memory { self.new.journal.rows.ghost_name ≡ self.old.journal.rows.ghost_name }
    {
        self.turn(month, Event::Close)
    }
}
