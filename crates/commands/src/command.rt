use crate::fault::{Fault, Reason};
use crate::readings::readings;
use crate::words::{byte, bytes, letter, number, short};
use factor::PlantRow;
use reading::ReadingSet;
use sources::Mode;
use std::alloc::{AllocError, Global};

// A frame to be written, in numbers that a host may state lawfully or not.
#[derive(Drop)]
pub struct Stated {
    pub year: u32,
    pub day: u32,
    pub kind: u32,
    pub item: u32,
    pub tier: char,
    pub share: Option<u32>,
    pub readings: ReadingSet,
    pub name: Vec<u8>,
}

// What an operator asks for.
#[derive(Drop)]
pub enum Command {
    Open { year: u32, entries: u32 },
    Rows(u32),
    Row(PlantRow),
    Source(Mode),
    Offer(Vec<u8>),
    Withdraw(u32),
    Hold(u32),
    Release(u32),
    Close(u32),
    Line { month: u32, line: u32 },
    YearLine(u32),
    Total,
    Statement(u32),
    Print,
    Month { year: u32, day: u32 },
    Record(Vec<u8>),
    Quantities(Vec<u8>),
    Name(Vec<u8>),
    Frame(Stated),
}

fn row(words: &[&str]) -> Result<PlantRow, Reason> {
    let [class, item, tier, first_year, last_year, rate, share] = words else {
        return Err(Reason::WordCount);
    };
    Ok(PlantRow {
        class: byte(class)?,
        item: byte(item)?,
        tier: letter(tier)?,
        first_year: short(first_year)?,
        last_year: short(last_year)?,
        rate: number(rate)?,
        share: short(share)?,
    })
}

fn source(words: &[&str]) -> Result<Mode, Reason> {
    let [word] = words else {
        return Err(Reason::WordCount);
    };
    match *word {
        "pair" => Ok(Mode::Both),
        "list" => Ok(Mode::Listed),
        "printed" => Ok(Mode::Printed),
        "none" => Ok(Mode::Neither),
        _ => Err(Reason::UnknownSource),
    }
}

fn share(word: &str) -> Result<Option<u32>, Reason> {
    match word {
        "-" => Ok(None),
        _ => Ok(Some(number(word)?)),
    }
}

fn stated_frame(heap: Global, words: &[&str]) -> Result<Stated, Fault> {
    let [year, day, kind, item, tier, part, set, name] = words else {
        return Err(Reason::WordCount.into());
    };
    let year = number(year)?;
    let day = number(day)?;
    let kind = number(kind)?;
    let item = number(item)?;
    Ok(Stated {
        year,
        day,
        kind,
        item,
        tier: letter(tier)?,
        share: share(part)?,
        readings: readings(set, item)?,
        name: bytes(heap, name)?,
    })
}

fn one_number(words: &[&str]) -> Result<u32, Reason> {
    let [word] = words else {
        return Err(Reason::WordCount);
    };
    number(word)
}

fn one_frame(heap: Global, words: &[&str]) -> Result<Vec<u8>, Fault> {
    let [word] = words else {
        return Err(Reason::WordCount.into());
    };
    bytes(heap, word)
}

// The command that a line's words say, the first of them its name.
fn named(heap: Global, name: &str, rest: &[&str]) -> Result<Command, Fault> {
    match name {
        "open" => {
            let [year, entries] = rest else {
                return Err(Reason::WordCount.into());
            };
            Ok(Command::Open {
                year: number(year)?,
                entries: number(entries)?,
            })
        }
        "rows" => Ok(Command::Rows(one_number(rest)?)),
        "row" => Ok(Command::Row(row(rest)?)),
        "source" => Ok(Command::Source(source(rest)?)),
        "offer" => Ok(Command::Offer(one_frame(heap, rest)?)),
        "withdraw" => Ok(Command::Withdraw(one_number(rest)?)),
        "hold" => Ok(Command::Hold(one_number(rest)?)),
        "release" => Ok(Command::Release(one_number(rest)?)),
        "close" => Ok(Command::Close(one_number(rest)?)),
        "line" => {
            let [month, line] = rest else {
                return Err(Reason::WordCount.into());
            };
            Ok(Command::Line {
                month: number(month)?,
                line: number(line)?,
            })
        }
        "yearline" => Ok(Command::YearLine(one_number(rest)?)),
        "total" => {
            let [] = rest else {
                return Err(Reason::WordCount.into());
            };
            Ok(Command::Total)
        }
        "statement" => Ok(Command::Statement(one_number(rest)?)),
        "print" => {
            let [] = rest else {
                return Err(Reason::WordCount.into());
            };
            Ok(Command::Print)
        }
        "month" => {
            let [year, day] = rest else {
                return Err(Reason::WordCount.into());
            };
            Ok(Command::Month {
                year: number(year)?,
                day: number(day)?,
            })
        }
        "record" => Ok(Command::Record(one_frame(heap, rest)?)),
        "quantities" => Ok(Command::Quantities(one_frame(heap, rest)?)),
        "name" => Ok(Command::Name(one_frame(heap, rest)?)),
        "frame" => Ok(Command::Frame(stated_frame(heap, rest)?)),
        _ => Err(Fault::Reason(Reason::UnknownCommand)),
    }
}

// The command of a line, or none where it is blank or begins with #.
pub fn parse(heap: Global, line: &str) -> Result<Option<Command>, Fault> {
    if line.starts_with('#') {
        return Ok(None);
    }
    let mut words = Vec::new(heap);
    for word in line.split_whitespace() {
        words.push(word).map_err(|e| AllocError::from(e))?;
    }
    match words.as_slice() {
        [] => Ok(None),
        [name, rest @ ..] => { Ok(Some(named(heap, name, rest)?)) }
    }
}
