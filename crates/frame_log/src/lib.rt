// A log of frames: a year in two bytes, then frames, each after its length in two bytes, high bytes first.
// Its frames are handed to what takes or refuses them, and counted; one taker takes lawful records of that year.
#![tactic(auto)]

mod frames;
mod heading;
mod laws;
mod walk;

ghost use Rattle.std.specs.Prelude.{◌≡◌, MatchOption};
ghost use Rattle.frame_log.specs.Log.{taken_by, Counted};

use calendar::Year;
pub use frames::{CutOff, Frames, Next, next_frame};
pub use heading::{frames_of, year_and_frames};
pub use laws::logs_stand;
use record::read;
pub use walk::{Counts, Taker, tally};

// What a log comes to.
#[derive(Clone, Copy, PartialEq, Eq, Debug)]
pub struct LogCounts {
    pub year: u16,
    pub taken: usize,
    pub refused: usize,
}

// Takes the frames that read as lawful records of a year.
#[derive(Drop)]
struct OfYear {
    year: Year,
}

impl Taker for OfYear {
    ghost answers = { λ t frame b u. (b ≡ taken_by t.year.number frame) × (u ≡ t) };

    fn takes(&mut self, frame: &[u8]) -> bool {
        let year = self.year;
        read(frame).is_ok_and(|record| record.day().year() == year)
    }
}

// The year of a log, and how many of its frames are taken and how many refused; none without a lawful year.
pub fn year_and_counts(log: &[u8]) -> Option<(Year, Counts)>
    ensures { MatchOption result (Counted log.now 0 0 0) (λ c. Counted log.now c.0.number c.1.taken c.1.refused) }
{
    let (year, frames) = year_and_frames(log)?;
    let counts = tally(frames, &mut OfYear { year });
    Some((year, counts))
}

// The same in numbers, for every log: without a lawful year all three are 0.
pub fn count(log: &[u8]) -> LogCounts
    ensures { Counted log.now result.year result.taken result.refused }
{
    let Some((year, counts)) = year_and_counts(log) else {
        return LogCounts {
            year: 0,
            taken: 0,
            refused: 0,
        };
    };
    LogCounts {
        year: year.number(),
        taken: counts.taken,
        refused: counts.refused,
    }
}

#[cfg(test)]
mod tests {
    use super::*;

    // 2024, then one frame: day 366 of 2024, fuel of row 2, default factor, 1000 kg.
    static LOG: [u8; 30] = [
        0x07, 0xE8, 0x00, 0x1A, 0x01, 0x00, 0x04, 0x07, 0xE8, 0x01, 0x6E, 0x02, 0x00, 0x01, 0x01,
        0x03, 0x00, 0x01, 0x02, 0x04, 0x00, 0x01, 0x44, 0x05, 0x00, 0x04, 0x44, 0x7A, 0x00, 0x00,
    ];

    fn is_counted(log: &[u8], year: u16, taken: usize, refused: usize) -> bool {
        let counts = count(log);
        counts.year == year && counts.taken == taken && counts.refused == refused
    }

    #[test]
    fn leap_day_is_taken(rt: HostRuntime) {
        assert!(rt; is_counted(&LOG, 2024, 1, 0));
    }

    #[test]
    fn cut_off_is_refused(rt: HostRuntime) {
        assert!(rt; is_counted(&LOG[0..29], 2024, 0, 1));
        assert!(rt; is_counted(&LOG[0..3], 2024, 0, 1));
        assert!(rt; is_counted(&LOG[0..2], 2024, 0, 0));
    }

    #[test]
    fn no_lawful_year(rt: HostRuntime) {
        assert!(rt; is_counted(&LOG[0..1], 0, 0, 0));
        assert!(rt; is_counted(&[0x07, 0xCF, 0x00], 0, 0, 0));
        assert!(rt; is_counted(&[0x08, 0x98, 0x00], 0, 0, 0));
    }
}
