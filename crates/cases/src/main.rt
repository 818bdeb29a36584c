// Reads generated cases from standard input and prints what the library answers to each, one line to a case.
#![tactic(auto)]

mod answers;
mod entries;
mod text;

use answers::{calendar_case, frame_case, write_case};
use anyhow::anyhow;
use case_input::Input;
use entries::entry_case;
use std::io::Read;

fn answer(rt: &HostRuntime, input: &mut Input<'_>) -> anyhow::Result<()> {
    // The generated input numbers its cases; the numbers stand here alone.
    let line = match input.byte()? {
        0 => frame_case(rt.alloc(), input)?,
        1 => write_case(rt.alloc(), input)?,
        2 => calendar_case(rt.alloc(), input)?,
        3 => entry_case(rt.alloc(), input)?,
        _ => return Err(anyhow!("no such case")),
    };
    rt.println(line.as_str())?;
    Ok(())
}

fn run(rt: &HostRuntime) -> anyhow::Result<()> {
    let mut bytes = Vec::new(rt.alloc());
    rt.stdin().read_to_end(&mut bytes)?;
    let mut input = Input::new(bytes.as_slice());
    // Every case takes a byte at least; each function below would have to promise that for `while !input.is_empty()`.
    for _ in 0..bytes.len() {
        if input.is_empty() {
            break;
        }
        answer(rt, &mut input)?;
    }
    Ok(())
}

fn main(rt: HostRuntime) -> anyhow::Result<()> {
    run(&rt)
}
