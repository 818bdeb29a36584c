use crate::text::EntryLine;
use anyhow::anyhow;
use case_input::{Input, NO_ROW, ROWS};
use emission::{Entry, entry_of};
use factor::{Pair, PlantList, Printed, Source};
use record::read;
use refusal::Refusal;
use sources::Sources;
use std::alloc::Global;

fn fill(input: &mut Input<'_>, list: &mut PlantList<'_>) -> anyhow::Result<()> {
    // A count of rows, and no index.
    let count = input.byte()?;
    for _ in 0..count {
        list.push(input.row()?)
            .map_err(|_| anyhow!("too many rows"))?;
    }
    Ok(())
}

fn kept<S: Source>(frame: &[u8], source: &mut S) -> Result<Entry, Refusal> {
    Ok(entry_of(read(frame)?, source)?)
}

// What is kept of a frame's record under a source.
pub fn entry_case(heap: Global, input: &mut Input<'_>) -> anyhow::Result<String> {
    let mut memory = [NO_ROW; ROWS];
    let mut pair = Pair::new(PlantList::new(&mut memory), Printed);
    fill(input, &mut pair.measured)?;
    let mode = input.byte()?.into();
    let frame = input.frame()?;
    match kept(frame, &mut Sources { pair, mode }) {
        Ok(entry) => Ok(format!(in heap; "{}", EntryLine(entry))?),
        Err(refusal) => Ok(format!(in heap; "{refusal}")?),
    }
}
