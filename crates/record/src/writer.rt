ghost use Rattle.std.specs.Prelude.{◌≡◌, ◌++◌, length, OnOk};
ghost use Rattle.refusal.specs.Said.{said};
ghost use Rattle.frame.specs.Faults as frames;
ghost use Rattle.frame.specs.Format.{write_answers, write_leaves};
ghost use Rattle.reading.specs.Layout.{Held};
ghost use Rattle.record.specs.Faults.{refusal_of};
ghost use Rattle.record.specs.Records.{two_bytes, share_bytes, parts_for, record_bytes, write_says, left};
ghost use Rattle.kind.specs.Tiers.{letter_of};
ghost use Rattle.record.specs.Views.{raw_of};

use crate::fault::RecordFault;
use crate::raw::RawRecord;
use crate::record::Record;
use frame::{Fields, FrameFault, check_name};
use kind::Tier;

// Each is a function, so that its bytes are proved to be those of the definition.
fn two_bytes(n: u16) -> [u8; 2]
    ensures { result ≡ two_bytes n }
{
    n.to_be_bytes()
}

fn date_bytes(year: u16, day: u16) -> [u8; 4]
    ensures { result ≡ two_bytes year ++ two_bytes day }
{
    let [a, b] = two_bytes(year);
    let [c, d] = two_bytes(day);
    [a, b, c, d]
}

fn share_bytes(share: Option<u16>) -> Option<[u8; 2]>
    ensures { result ≡ share_bytes share }
{
    share.map(two_bytes)
}

fn letter_byte(tier: Tier) -> u8
    ensures { result ≡ letter_of tier }
{
    char::from(tier) as u8
}

// Writes a lawful record and a name as a frame.
fn put(lawful: Record, name: &[u8], out: &mut [u8]) -> Result<usize, FrameFault>
    ensures answers { said (λ n. n) frames.refusal_of result ≡ write_answers (parts_for (raw_of lawful) name.now) (length out.old) }
    ensures leaves { out.new ≡ write_leaves (parts_for (raw_of lawful) name.now) out.old }
    ensures held { Held (raw_of lawful).readings }
{
    let raw = lawful.raw();
    let readings = raw.readings.bytes();
    let fields = Fields {
        when: date_bytes(raw.year, raw.day),
        kind: raw.kind,
        item: raw.item,
        tier: letter_byte(lawful.tier()),
        readings: readings.as_slice(),
        share: share_bytes(raw.share),
        name,
    };
    frame::write(fields, out)
}

// Writes the record and a meter's name as a frame at the front of the buffer, and answers its length.
pub fn write(raw: RawRecord, name: &[u8], out: &mut [u8]) -> Result<usize, RecordFault>
    ensures answers { said (λ n. n) refusal_of result ≡ write_says raw name.now (length out.old) }
    ensures leaves { out.new ≡ left (record_bytes raw name.now) out.old (write_says raw name.now (length out.old)) }
    ensures held { OnOk result (Held raw.readings) }
{
    check_name(name)?;
    let lawful = raw.check()?;
    Ok(put(lawful, name, out)?)
}
