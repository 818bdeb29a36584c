// Records and frames are two forms of one thing: what is written reads back, and what was read is written again.
#![tactic(auto)]

mod laws;

ghost use Rattle.std.specs.Prelude.{◌≡◌, length, take, IfOk};
ghost use Rattle.refusal.specs.Said.{said};
ghost use Rattle.record.specs.Faults.{refusal_of};
ghost use Rattle.record.specs.Records.{record_bytes, write_says, left};
ghost use Rattle.record_laws.specs.Laws.{copy_says, ReadsBack};

pub use laws::records_stand;
use record::{RawRecord, RecordFault, read, write};

// Writes a record and a meter's name as a frame that reads back as that record and that name.
pub fn write_frame(raw: RawRecord, name: &[u8], out: &mut [u8]) -> Result<usize, RecordFault>
    ensures answers { said (λ n. n) refusal_of result ≡ write_says raw name.now (length out.old) }
    ensures leaves { out.new ≡ left (record_bytes raw name.now) out.old (write_says raw name.now (length out.old)) }
    ensures back { IfOk result (λ n. ReadsBack raw name.now (take n out.new)) }
{
    write(raw, name, out)
}

// Copies a frame through its record and its name: what is written is the same frame.
pub fn copy_frame(frame: &[u8], out: &mut [u8]) -> Result<usize, RecordFault>
    ensures answers { said (λ n. n) refusal_of result ≡ copy_says frame.now (length out.old) }
    ensures leaves { out.new ≡ left frame.now out.old (copy_says frame.now (length out.old)) }
{
    let record = read(frame)?;
    let name = frame::name(frame)?;
    write(record.raw(), name, out)
}

#[cfg(test)]
mod tests {
    use super::*;
    use refusal::Refusal;
    use std::test::Fail;

    // Day 366 of 2024, fuel of row 2, default factor, 1000 kg, no name.
    static FRAME: [u8; 26] = [
        0x01, 0x00, 0x04, 0x07, 0xE8, 0x01, 0x6E, 0x02, 0x00, 0x01, 0x01, 0x03, 0x00, 0x01, 0x02,
        0x04, 0x00, 0x01, 0x44, 0x05, 0x00, 0x04, 0x44, 0x7A, 0x00, 0x00,
    ];

    #[test]
    fn copies_the_frame(rt: HostRuntime) -> Result<(), Fail> {
        let mut out = [9; 27];
        assert!(rt; copy_frame(&FRAME, &mut out)? == 26);
        assert!(rt; &out[0..26] == &FRAME[0..26]);
        assert!(rt; out[26] == 9);
        Ok(())
    }

    #[test]
    fn leaves_a_short_buffer(rt: HostRuntime) {
        let mut out = [9; 25];
        match copy_frame(&FRAME, &mut out) {
            Ok(_) => assert!(rt; false),
            Err(fault) => {
                let refusal = Refusal::from(fault);
                assert!(rt; refusal.number == 20);
                assert!(rt; refusal.place == 26);
            }
        }
        assert!(rt; out[0] == 9);
    }

    #[test]
    fn day_366_of_a_common_year(rt: HostRuntime) -> Result<(), Fail> {
        let mut frame = FRAME;
        frame[4] = 0xE7;
        let mut out = [9; 26];
        match copy_frame(&frame, &mut out) {
            Ok(_) => {
                assert!(rt; false);
                Ok(())
            },
            Err(fault) => {
                assert!(rt; Refusal::from(fault).number == 6);
                Ok(())
            },
        }
    }
}
