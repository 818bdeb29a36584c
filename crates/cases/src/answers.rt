use crate::text::RecordLine;
use anyhow::anyhow;
use calendar::{Day, Year};
use case_input::Input;
use frame::name;
use reading::{ReadingSet, Steam, Wastewater, Water};
use record::{RawRecord, read};
use record_laws::{copy_frame, write_frame};
use refusal::Refusal;
use shown::Hex;
use std::alloc::Global;
use std::fmt::Write;

// Longer than any frame.
const ROOM: usize = 128;

// What a buffer holds before it is written.
const BEFORE: u8 = 0xA5;

fn is_untouched(bytes: &[u8]) -> bool {
    bytes.iter().all(|byte| *byte == BEFORE)
}

// The copy of a frame through its record, made and looked at here: it must be the frame and leave the rest of the buffer.
fn put_copy(out: &mut String, frame: &[u8]) -> anyhow::Result<()> {
    let mut buffer = [BEFORE; ROOM];
    match copy_frame(frame, &mut buffer) {
        Ok(n) => {
            if n > ROOM || &buffer[0..n] != frame || !is_untouched(&buffer[n..]) {
                return Err(anyhow!("a copy differs"));
            }
            write!(out, " copied {n}")?;
        }
        Err(fault) => write!(out, "{}", Refusal::from(fault))?,
    }
    Ok(())
}

// What the name and the record of a frame are; heap and input go together in the four cases alone, each used by itself.
pub fn frame_case(heap: Global, input: &mut Input<'_>) -> anyhow::Result<String> {
    let frame = input.frame()?;
    let mut out = String::new(heap);
    // A match for each part, since each ends with an answer or a refusal of its own.
    match name(frame) {
        Ok(name) => write!(out, "name {}", Hex(name))?,
        Err(fault) => write!(out, "{}", Refusal::from(fault))?,
    }
    out.push_str(" | ")?;
    match read(frame) {
        Ok(record) => {
            write!(out, "{}", RecordLine(record))?;
            put_copy(&mut out, frame)?;
        }
        Err(fault) => write!(out, "{}", Refusal::from(fault))?,
    }
    Ok(out)
}

fn set_of(input: &mut Input<'_>) -> anyhow::Result<ReadingSet> {
    // The generated input numbers the sets; the numbers stand here alone.
    let set = match input.byte()? {
        0 => ReadingSet::Amount(input.reading()?),
        1 => ReadingSet::Water(Water {
            kilograms: input.reading()?,
            celsius: input.reading()?,
        }),
        2 => ReadingSet::Steam(Steam {
            kilograms: input.reading()?,
            kilopascals: input.reading()?,
        }),
        _ => ReadingSet::Wastewater(Wastewater {
            cubic_metres: input.reading()?,
            inlet: input.reading()?,
            outlet: input.reading()?,
            sludge: input.reading()?,
            recovered: input.reading()?,
        }),
    };
    Ok(set)
}

fn share_of(input: &mut Input<'_>) -> anyhow::Result<Option<u16>> {
    let given = input.byte()?;
    let share = input.word()?;
    Ok((given != 0).then_some(share))
}

fn raw_of(input: &mut Input<'_>) -> anyhow::Result<RawRecord> {
    Ok(RawRecord {
        year: input.word()?,
        day: input.word()?,
        kind: input.byte()?,
        item: input.byte()?,
        tier: input.letter()?,
        share: share_of(input)?,
        readings: set_of(input)?,
    })
}

// What writing a record and a name into a buffer of some length makes; what is not written must stay.
pub fn write_case(heap: Global, input: &mut Input<'_>) -> anyhow::Result<String> {
    let raw = raw_of(input)?;
    let length = input.byte()?;
    let name = input.bytes(usize::from(length))?;
    let room = usize::from(input.byte()?);
    let mut out = String::new(heap);
    let mut buffer = vec![in heap; BEFORE; room]?;
    match write_frame(raw, name, buffer.as_mut_slice()) {
        Ok(n) => {
            if n > buffer.len() || !is_untouched(&buffer.as_slice()[n..]) {
                return Err(anyhow!("bytes beyond the frame are changed"));
            }
            write!(out, "frame {}", Hex(&buffer.as_slice()[0..n]))?;
        }
        Err(fault) => {
            if !is_untouched(buffer.as_slice()) {
                return Err(anyhow!("a refusal changed the buffer"));
            }
            write!(out, "{}", Refusal::from(fault))?;
        }
    }
    Ok(out)
}

fn month_of(year: u16, day: u16) -> Result<u8, Refusal> {
    Ok(Day::new(Year::try_from(year)?, day)?.month().number())
}

// The month of a day.
pub fn calendar_case(heap: Global, input: &mut Input<'_>) -> anyhow::Result<String> {
    let year = input.word()?;
    let day = input.word()?;
    match month_of(year, day) {
        Ok(month) => Ok(format!(in heap; "month {month}")?),
        Err(refusal) => Ok(format!(in heap; "{refusal}")?),
    }
}
