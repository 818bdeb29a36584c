use emission::Entry;
use factor::Factor;
use record::{RawRecord, Record};
use shown::{Bits, OrDash, Whole};
use std::fmt;

#[derive(Drop)]
struct RateAndShare(Factor);

impl fmt::Display for RateAndShare {
    fn fmt<W: fmt::Write>(&self, f: &mut fmt::Formatter<W>) -> fmt::Result {
        write!(f, "{},{}", self.0.rate, self.0.share)
    }
}

// A record in plain numbers, with its month and its quantities.
#[derive(Drop)]
pub struct RecordLine(pub Record);

impl fmt::Display for RecordLine {
    fn fmt<W: fmt::Write>(&self, f: &mut fmt::Formatter<W>) -> fmt::Result {
        let record = self.0;
        let RawRecord {
            year,
            day,
            kind,
            item,
            tier,
            share,
            readings,
        } = record.raw();
        let month = record.day().month().number();
        write!(f, "record {year} {day} {month} {kind} {item} {tier} ")?;
        write!(
            f,
            "{} {} {}",
            OrDash(share),
            Bits(readings),
            Whole(record.readings().quantities())
        )
    }
}

// What is kept of a record.
#[derive(Drop)]
pub struct EntryLine(pub Entry);

impl fmt::Display for EntryLine {
    fn fmt<W: fmt::Write>(&self, f: &mut fmt::Formatter<W>) -> fmt::Result {
        let entry = self.0;
        let factor = OrDash(entry.factor.map(RateAndShare));
        write!(
            f,
            "entry {} {} {} ",
            entry.day,
            entry.kind.number(),
            entry.kind.item()
        )?;
        write!(f, "{} {} ", char::from(entry.tier), OrDash(entry.share))?;
        write!(f, "{} {factor} {}", Whole(entry.quantities), entry.grams)
    }
}
