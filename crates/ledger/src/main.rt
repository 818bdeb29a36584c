// Reads commands from standard input, one to a line, and answers each with a line on standard output.
#![tactic(auto)]

use anyhow::anyhow;
use calendar::Year;
use commands::{Command, Fault, Reason, parse};
use desk::{Desk, Failed, OpenBook, Unopened, short, without_book};
use factor::{Pair, PlantList, PlantRow, Printed};
use frame_log::Counts;
use journal::JournalEntry;
use refusal::Refusal;
use sources::{Mode, Sources};
use std::io::Read;
use year::open as open_year;

// Room for rows in the plant's list before an operator asks for another.
const ROWS: usize = 64;

// Most entries of a journal, and most rows of a list.
const MOST: u32 = 1_000_000;

// What fills the memory of a list: a row that never answers.
const NO_ROW: PlantRow = PlantRow {
    class: 0,
    item: 0,
    tier: '-',
    first_year: 0,
    last_year: 0,
    rate: 0,
    share: 0,
};

// What stays when a book or a list is made anew: the list's room and rows, and which source later offers ask.
#[derive(Drop)]
struct Kept {
    room: usize,
    rows: Vec<PlantRow>,
    mode: Mode,
}

// Why the commands are read on with another book, or another list.
#[derive(Clone, Copy)]
enum Next {
    Book(Year, usize),
    List,
    End,
}

// The lines of the input that are left.
#[derive(Drop)]
struct Lines<'i> {
    rest: &'i [u8],
}

impl<'i> Lines<'i> {
    // The next line, without the newline at its end.
    fn next_line(&mut self) -> Option<&'i [u8]> {
        if self.rest.is_empty() {
            return None;
        }
        let length = self
            .rest
            .iter()
            .position(|byte| *byte == b'\n')
            .unwrap_or(self.rest.len());
        let line = self.rest.get(..length).unwrap_or(self.rest);
        self.rest = self.rest.get(length + 1..).unwrap_or(&[]);
        Some(line)
    }
}

fn print_answer(rt: &HostRuntime, answer: Result<String, Failed>) -> anyhow::Result<()> {
    match answer {
        Ok(text) => println!(rt; "{text}")?,
        Err(Failed::Refused(refusal)) => println!(rt; "{refusal}")?,
        Err(Failed::Error(reason)) => println!(rt; "error {reason}")?,
        Err(Failed::Memory) => return Err(anyhow!("out of memory")),
    }
    Ok(())
}

fn word_of(mode: Mode) -> &'static str {
    match mode {
        Mode::Both => "pair",
        Mode::Listed => "list",
        Mode::Printed => "printed",
        Mode::Neither => "none",
    }
}

// A year to be opened with room for so many entries.
fn opening(year: u32, entries: u32) -> Result<(Year, usize), Failed> {
    if entries > MOST {
        return Err(Failed::Error(Reason::TooManyEntries));
    }
    let year = Year::try_from(short(year)).map_err(Refusal::from)?;
    Ok((year, entries as usize))
}

// What one command is answered, or that a book or a list is to be made anew.
fn obey<D: Desk>(
    rt: &HostRuntime,
    kept: &mut Kept,
    desk: &mut D,
    command: Command,
) -> anyhow::Result<Option<Next>> {
    match command {
        Command::Open { year, entries } => match opening(year, entries) {
            Ok((year, entries)) => {
                println!(rt; "year {}", year.number())?;
                return Ok(Some(Next::Book(year, entries)));
            }
            Err(failed) => print_answer(rt, Err(failed))?,
        },
        Command::Rows(room) => {
            if room <= MOST {
                println!(rt; "rows {room}")?;
                kept.room = room as usize;
                kept.rows.clear();
                return Ok(Some(Next::List));
            }
            print_answer(rt, Err(Failed::Error(Reason::TooManyRows)))?;
        }
        Command::Row(row) => match desk.push(row) {
            Ok(number) => {
                kept.rows.push(row)?;
                println!(rt; "row {number}")?;
            }
            Err(refusal) => print_answer(rt, Err(Failed::Refused(refusal)))?,
        },
        Command::Source(mode) => {
            kept.mode = mode;
            desk.choose(mode);
            println!(rt; "source {}", word_of(mode))?;
        }
        other => {
            let answer = match without_book(rt.alloc(), other) {
                Ok(Ok(text)) => Ok(text),
                Ok(Err(command)) => desk.answer(rt.alloc(), command),
                Err(failed) => Err(failed),
            };
            print_answer(rt, answer)?;
        }
    }
    Ok(None)
}

// Answers the lines until a book or a list is to be made anew.
fn serve<D: Desk>(
    rt: &HostRuntime,
    lines: &mut Lines<'_>,
    kept: &mut Kept,
    desk: &mut D,
) -> anyhow::Result<Next> {
    for _ in 0..lines.rest.len() {
        let Some(line) = lines.next_line() else {
            break;
        };
        let Ok(line) = str::from_utf8(line) else {
            print_answer(rt, Err(Failed::Error(Reason::UnknownCommand)))?;
            continue;
        };
        match parse(rt.alloc(), line) {
            Ok(None) => {}
            Ok(Some(command)) => {
                if let Some(next) = obey(rt, kept, desk, command)? {
                    return Ok(next);
                }
            }
            Err(Fault::Reason(reason)) => print_answer(rt, Err(Failed::Error(reason)))?,
            Err(Fault::Memory(e)) => return Err(e.into()),
        }
    }
    Ok(Next::End)
}

// The list that is kept, over its memory.
fn listed<'m>(memory: &'m mut [PlantRow], kept: &Kept) -> Sources<'m> {
    let mut list = PlantList::new(memory);
    for row in &kept.rows {
        // There was room for it before.
        let _ = list.push(*row);
    }
    Sources {
        pair: Pair::new(list, Printed),
        mode: kept.mode,
    }
}

// Answers the lines up to the first opening.
fn before_a_year(rt: &HostRuntime, lines: &mut Lines<'_>, kept: &mut Kept) -> anyhow::Result<Next> {
    for _ in 0..=lines.rest.len() {
        let mut memory = vec![in rt.alloc(); NO_ROW; kept.room]?;
        let mut desk = Unopened {
            sources: listed(memory.as_mut_slice(), kept),
        };
        match serve(rt, lines, kept, &mut desk)? {
            Next::List => {}
            next => return Ok(next),
        }
    }
    Ok(Next::End)
}

// Answers the lines of one book.
fn in_a_year(
    rt: &HostRuntime,
    lines: &mut Lines<'_>,
    kept: &mut Kept,
    year: Year,
    entries: usize,
) -> anyhow::Result<Next> {
    let mut journal = vec![in rt.alloc(); JournalEntry::blank(); entries]?;
    let mut book = open_year(year, journal.as_mut_slice());
    let mut counts = Counts {
        taken: 0,
        refused: 0,
    };
    for _ in 0..=lines.rest.len() {
        let mut memory = vec![in rt.alloc(); NO_ROW; kept.room]?;
        let mut desk = OpenBook {
            book: &mut book,
            counts: &mut counts,
            sources: listed(memory.as_mut_slice(), kept),
        };
        match serve(rt, lines, kept, &mut desk)? {
            Next::List => {}
            next => return Ok(next),
        }
    }
    Ok(Next::End)
}

fn main(rt: HostRuntime) -> anyhow::Result<()> {
    let mut input = Vec::new(rt.alloc());
    rt.stdin().read_to_end(&mut input)?;
    let mut lines = Lines {
        rest: input.as_slice(),
    };
    let mut kept = Kept {
        room: ROWS,
        rows: Vec::new(rt.alloc()),
        mode: Mode::Both,
    };
    let mut next = before_a_year(&rt, &mut lines, &mut kept)?;
    // Each opening is a line at least.
    for _ in 0..=input.len() {
        let Next::Book(year, entries) = next else {
            break;
        };
        next = in_a_year(&rt, &mut lines, &mut kept, year, entries)?;
    }
    Ok(())
}
