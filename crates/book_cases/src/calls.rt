use crate::told::Told;
use anyhow::anyhow;
use book::Book;
use case_input::Input;
use factor::PlantRow;
use refusal::Refusal;
use sources::{Mode, Sources};

// A year's book, and the sources that its calls ask.
#[derive(Drop)]
pub struct OpenBook<'m> {
    pub book: Book<'m>,
    pub sources: Sources<'m>,
}

// A method for each call of the book, with what that takes, which gives its answer the words to print.
impl OpenBook<'_> {
    fn push(&mut self, row: PlantRow) -> Result<Told, Refusal> {
        Ok(Told::Row(self.sources.pair.measured.push(row)?))
    }

    // A frame offered several times; only the last answer is told.
    fn offer(&mut self, mode: Mode, times: u32, frame: &[u8]) -> Result<Told, Refusal> {
        self.sources.mode = mode;
        for _ in 1..times {
            let _ = self.book.offer(frame, &mut self.sources);
        }
        Ok(Told::Taken(self.book.offer(frame, &mut self.sources)?))
    }

    fn withdraw(&mut self, number: usize) -> Result<Told, Refusal> {
        Ok(Told::Withdrawn(self.book.withdraw(number)?))
    }

    fn hold(&mut self, month: u8) -> Result<Told, Refusal> {
        Ok(Told::Held(self.book.hold(month)?))
    }

    fn release(&mut self, month: u8) -> Result<Told, Refusal> {
        Ok(Told::Released(self.book.release(month)?))
    }

    fn close(&mut self, month: u8) -> Result<Told, Refusal> {
        Ok(Told::Closed(self.book.close(month)?))
    }

    fn line(&self, month: u8, line: u8) -> Result<Told, Refusal> {
        let figure = self.book.line(month, line)?;
        Ok(Told::Line {
            month,
            line,
            figure,
        })
    }

    fn year_line(&self, line: u8) -> Result<Told, Refusal> {
        let figure = self.book.year_line(line)?;
        Ok(Told::YearLine { line, figure })
    }

    fn total(&self) -> Result<Told, Refusal> {
        Ok(Told::Total(self.book.total()))
    }

    // What the next call of the input is answered.
    pub fn answer(&mut self, input: &mut Input<'_>) -> anyhow::Result<Result<Told, Refusal>> {
        // The generated input numbers its calls and events; opening is read by `main`.
        match input.byte()? {
            1 => Ok(self.push(input.row()?)),
            2 => {
                let mode = input.byte()?.into();
                let times = input.double_word()?;
                Ok(self.offer(mode, times, input.frame()?))
            }
            3 => Ok(self.withdraw(input.double_word()? as usize)),
            4 => {
                let event = input.byte()?;
                let month = input.byte()?;
                match event {
                    0 => Ok(self.hold(month)),
                    1 => Ok(self.release(month)),
                    2 => Ok(self.close(month)),
                    _ => Err(anyhow!("no such event")),
                }
            }
            5 => {
                let month = input.byte()?;
                Ok(self.line(month, input.byte()?))
            }
            6 => Ok(self.year_line(input.byte()?)),
            7 => Ok(self.total()),
            _ => Err(anyhow!("no such call")),
        }
    }
}
