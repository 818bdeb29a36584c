ghost use Rattle.std.specs.Prelude.{◌≡◌, drop, MatchOption};
ghost use Rattle.frame_log.specs.Log.{Names, Yearless};

use calendar::Year;

// The year that a log begins with, and the bytes of its frames behind it; none where it begins with no lawful year.
pub fn year_and_frames(log: &[u8]) -> Option<(Year, &[u8])>
    ensures { MatchOption result (Yearless log.now) (λ r. Names log.now r.0.number × (r.1.now ≡ drop 2 log.now)) }
{
    let (year, frames) = log.split_first_chunk::<2>()?;
    let year = Year::try_from(u16::from_be_bytes(*year)).ok()?;
    Some((year, frames))
}

// The bytes behind the year of a log, lawful or not.
pub fn frames_of(log: &[u8]) -> &[u8]
    ensures { result.now ≡ drop 2 log.now }
{
    match log {
        [_, _, frames @ ..] => frames,
        _ => &[],
    }
}
