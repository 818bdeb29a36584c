// Reads a log of frames from standard input, and prints its year: how many frames were taken and refused, the lines and the
// net total.
#![tactic(auto)]

use journal::JournalEntry;
use printed::{LONGEST, print_log};
use std::io::{Read, Write};

// Room for the entries of the journal.
const ENTRIES: usize = 1_000;

fn main(rt: HostRuntime) -> anyhow::Result<()> {
    let mut log = Vec::new(rt.alloc());
    rt.stdin().read_to_end(&mut log)?;
    let mut memory = vec![in rt.alloc(); JournalEntry::blank(); ENTRIES]?;
    let mut text = [0; LONGEST];
    // So long a buffer is never too short.
    let length = print_log(log.as_slice(), memory.as_mut_slice(), &mut text).unwrap();
    rt.stdout().write_all(&text[..length])?;
    Ok(())
}
