ghost use Rattle.std.specs.Prelude.{◌≡◌, ◌↔◌, IsTrue, MatchResult};
ghost use Rattle.rows.specs.Held.{held, Appended, Refused};
ghost use Rattle.factor.specs.PlantRows.{row_factor, row_fits, first_fit};
ghost use Rattle.factor.specs.Questions.{asked_of};
ghost use Rattle.factor.specs.Limited.{rows_limited};
ghost use Rattle.factor.specs.declared.fault.FactorFault.TheVariants.{ListFull};

use crate::fault::FactorFault;
use crate::question::{Factor, Question};
use crate::source::{LimitedSource, Source};
use rows::Rows;

// A factor of the plant's own, in numbers, since a host may state any: one that names no class, item or tier never answers.
#[derive(Clone, Copy)]
pub struct PlantRow {
    pub class: u8,
    pub item: u8,
    pub tier: char,
    pub first_year: u16,
    pub last_year: u16,
    pub rate: u32,
    pub share: u16,
}

impl PlantRow {
    fn factor(self) -> Factor
        ensures { result ≡ row_factor self }
    {
        Factor {
            rate: self.rate,
            share: self.share,
        }
    }

    // Whether the row names what is asked, and keeps to the limits of its class.
    fn fits(self, question: Question) -> bool
        ensures { result ≡ row_fits (asked_of question) self }
    {
        self.class == question.class.number()
            && self.item == question.class.item()
            && self.tier == char::from(question.tier)
            && (self.first_year..=self.last_year).contains(&question.year.number())
            && self.factor().keeps(question.class)
    }
}

fn first_fit(rows: &[PlantRow], question: Question) -> Option<Factor>
    ensures { result ≡ first_fit (asked_of question) rows.now }
{
    rows.iter()
        .find(|row| row.fits(question))
        .map(|row| row.factor())
}

// The plant's own factors; of the rows that fit a question the first answers it.
#[derive(Drop)]
pub struct PlantList<'m> {
    list: Rows<'m, PlantRow>,
}

impl<'m> PlantList<'m> {
    pub fn new(memory: &'m mut [PlantRow]) -> PlantList<'m>
        ensures rows { result.list.rows.now ≡ memory.old }
        ensures count { result.list.length ≡ 0 }
        ensures memory { result.list.rows.ghost_name ≡ memory.entry.ghost_name }
    {
        PlantList {
            list: Rows::new(memory),
        }
    }

    pub fn len(&self) -> usize
        ensures { result ≡ self.now.list.length }
    {
        self.list.len()
    }

    pub fn is_empty(&self) -> bool
        ensures { IsTrue result ↔ (self.now.list.length ≡ 0) }
    {
        self.list.is_empty()
    }

    // Gives the number of rows then.
    pub fn push(&mut self, row: PlantRow) -> Result<usize, FactorFault>
        ensures memory { self.new.list.rows.ghost_name ≡ self.old.list.rows.ghost_name }
        ensures change { MatchResult result (λ n. (n ≡ self.new.list.length) × Appended row self.old.list.rows.now self.old.list.length self.new.list.rows.now self.new.list.length) (λ e. (e ≡ ListFull) × Refused self.old.list.rows.now self.old.list.length self.new.list.rows.now self.new.list.length) }
    {
        Ok(self.list.push(row)?)
    }
}

impl Source for PlantList<'_> {
    ghost table = { λ s q. first_fit q (held s.list.rows.now s.list.length) };

    fn ask(&mut self, question: Question) -> Option<Factor> {
        first_fit(self.list.as_slice(), question)
    }
}

impl LimitedSource for PlantList<'_> {
    ghost limits = { λ s q. rows_limited (asked_of q) (held s.list.rows.now s.list.length) };
}
