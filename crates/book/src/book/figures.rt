ghost use Rattle.std.specs.Prelude.{◌≡◌, ◌*◌, ◌≤◌, IfErr, if◌then◌else◌, is_some, Ok};
ghost use Rattle.refusal.specs.Said.{said};
ghost use Rattle.calendar.specs.Months.{month_in};
ghost use Rattle.emission.specs.Parts.{most_grams};
ghost use Rattle.months.specs.Lines.{line_number};
ghost use Rattle.journal.specs.declared.fault.BookFault.TheVariants.{NoSuchMonth, NoSuchLine};
ghost use Rattle.journal.specs.Faults.{refusal_of};
ghost use Rattle.journal.specs.Reads.{line_read, year_figure, year_line_read, total_count, net_grams};
ghost use Rattle.journal.specs.Runs.{TellsLine, TellsYearLine, TellsTotal};
ghost use Rattle.book.specs.Views.{contents_of};

use super::Book;
use crate::total::Total;
use calendar::{Month, Year};
use journal::BookFault;
use months::{Figure, Line};

impl<'m> Book<'m> {
    pub fn year(&self) -> Year
        ensures { result.number ≡ self.now.year.number }
    {
        self.year
    }

    // A line of a month.
    pub fn line(&self, month: u8, line: u8) -> Result<Figure, BookFault>
        ensures reads { said (λ f. f) refusal_of result ≡ line_read self.now.months month line }
        ensures told { TellsLine (contents_of self.now) month line (said (λ f. f) refusal_of result) }
        ensures fault { IfErr result (λ e. e ≡ (if is_some (month_in month) then NoSuchLine else NoSuchMonth)) }
    {
        let month = Month::try_from(month)?;
        let line = Line::try_from(line)?;
        Ok(self.months.figure(month, line))
    }

    // A line of the whole year: its twelve months added. No line has more than 60,000 entries in a month, so that nothing overflows.
    pub fn year_figure(&self, line: Line) -> Figure
        ensures is { result ≡ year_figure self.now.months (line_number line) }
        ensures few { result.count ≤ 60000 }
        ensures light { result.grams ≤ 12 * (60000 * most_grams) }
        ensures told { TellsYearLine (contents_of self.now) (line_number line) (Ok result) }
    {
        let mut count = 0;
        let mut grams = 0;
        for month in Month::all() {
            let figure = self.months.figure(month, line);
            count += figure.count;
            grams += figure.grams;
        }
        Figure { count, grams }
    }

    // A line of the whole year by its number.
    pub fn year_line(&self, line: u8) -> Result<Figure, BookFault>
        ensures reads { said (λ f. f) refusal_of result ≡ year_line_read self.now.months line }
        ensures told { TellsYearLine (contents_of self.now) line (said (λ f. f) refusal_of result) }
        ensures fault { IfErr result (λ e. e ≡ NoSuchLine) }
    {
        Ok(self.year_figure(Line::try_from(line)?))
    }

    // All that stands: its count, and what the lines that count as emissions come to less the power and heat sold.
    pub fn total(&self) -> Total
        ensures count { result.count ≡ total_count self.now.months }
        ensures net { result.grams ≡ net_grams self.now.months }
        ensures few { result.count ≤ 60000 }
        ensures told { TellsTotal (contents_of self.now) result.count result.grams }
    {
        // Line by line, as the rule has it: five are added and two deducted.
        let fuel = self.year_figure(Line::Fuel);
        let carbonate = self.year_figure(Line::Carbonate);
        let wastewater = self.year_figure(Line::Wastewater);
        let power_bought = self.year_figure(Line::PowerBought);
        let heat_bought = self.year_figure(Line::HeatBought);
        let power_sold = self.year_figure(Line::PowerSold);
        let heat_sold = self.year_figure(Line::HeatSold);
        let emitting = fuel.count
            + carbonate.count
            + wastewater.count
            + power_bought.count
            + heat_bought.count;
        let added = fuel.grams
            + carbonate.grams
            + wastewater.grams
            + power_bought.grams
            + heat_bought.grams;
        let deducted = power_sold.grams + heat_sold.grams;
        Total {
            count: emitting + power_sold.count + heat_sold.count,
            grams: added as i64 - deducted as i64,
        }
    }
}
