// Reads generated calls from standard input, makes them of books, and prints what each is answered, one line to a call.
#![tactic(auto)]

mod calls;
mod told;

use anyhow::anyhow;
use calendar::Year;
use calls::OpenBook;
use case_input::{Input, NO_ROW, ROWS};
use factor::{Pair, PlantList, Printed};
use journal::JournalEntry;
use refusal::Refusal;
use sources::{Mode, Sources};
use std::io::Read;
use year::open;

// The call that opens a year.
const OPEN: u8 = 0;

// Makes all calls of one book.
fn answer_all(
    rt: &HostRuntime,
    input: &mut Input<'_>,
    open_book: &mut OpenBook<'_>,
) -> anyhow::Result<()> {
    // Every call takes a byte at least; for a `while` each method of `OpenBook` that reads would have to promise it.
    for _ in 0..input.len() {
        if input.is_empty() || input.is_at(OPEN) {
            break;
        }
        match open_book.answer(input)? {
            Ok(told) => println!(rt; "{told}")?,
            Err(refusal) => println!(rt; "{refusal}")?,
        }
    }
    Ok(())
}

// Opens a year, with a new and empty plant list.
fn open_call(rt: &HostRuntime, input: &mut Input<'_>) -> anyhow::Result<()> {
    let number = input.word()?;
    let entries = input.double_word()? as usize;
    match Year::try_from(number) {
        Ok(year) => {
            let mut memory = vec![in rt.alloc(); JournalEntry::blank(); entries]?;
            let mut rows = [NO_ROW; ROWS];
            let mut open_book = OpenBook {
                book: open(year, memory.as_mut_slice()),
                sources: Sources {
                    pair: Pair::new(PlantList::new(&mut rows), Printed),
                    mode: Mode::Neither,
                },
            };
            println!(rt; "year {}", open_book.book.year().number())?;
            answer_all(rt, input, &mut open_book)
        }
        Err(fault) => {
            println!(rt; "{}", Refusal::from(fault))?;
            Ok(())
        }
    }
}

fn run(rt: &HostRuntime) -> anyhow::Result<()> {
    let mut bytes = Vec::new(rt.alloc());
    rt.stdin().read_to_end(&mut bytes)?;
    let mut input = Input::new(bytes.as_slice());
    // Every year takes a byte at least, as above.
    for _ in 0..bytes.len() {
        if input.is_empty() {
            break;
        }
        if input.byte()? != OPEN {
            return Err(anyhow!("no year is open"));
        }
        open_call(rt, &mut input)?;
    }
    Ok(())
}

fn main(rt: HostRuntime) -> anyhow::Result<()> {
    run(&rt)
}
