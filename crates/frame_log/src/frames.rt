ghost use Rattle.std.specs.Prelude.{◌≡◌, ◌<◌, ◌++◌, length, MatchOption};
ghost use Rattle.frame_log.specs.Log.{framed, Ended, left_of};

// The end of a log cuts a frame off: bytes are left, and no whole frame.
#[derive(Clone, Copy, PartialEq, Eq, Debug)]
pub struct CutOff;

// The frames of a log one after another, and what its end cuts off as a fault, told once.
#[derive(Drop)]
pub struct Frames<'l> {
    rest: &'l [u8],
}

impl<'l> Frames<'l> {
    pub fn new(log: &'l [u8]) -> Frames<'l>
        ensures { left_of result ≡ log.now }
    {
        Frames { rest: log }
    }
}

// The first frame and what follows it, unless the log has ended or is cut off.
fn split_frame(log: &[u8]) -> Option<(&[u8], &[u8])>
    ensures { MatchOption result (Ended log.now) (λ r. (framed r.0.now ++ r.1.now ≡ log.now) × (length r.0.now < 65536)) }
{
    // By a slice pattern, which names both bytes of the length.
    let [high, low, rest @ ..] = log else {
        return None;
    };
    rest.split_at_checked(usize::from(u16::from_be_bytes([*high, *low])))
}

// A frame of the log, and what follows it.
#[derive(Clone, Copy)]
pub struct Next<'l> {
    pub frame: &'l [u8],
    pub rest: &'l [u8],
}

// The first frame, unless the log has ended or is cut off; a copy of what follows it can be kept, as of `Frames` none can.
pub fn next_frame(log: &[u8]) -> Option<Next<'_>>
    ensures { MatchOption result (Ended log.now) (λ n. (framed n.frame.now ++ n.rest.now ≡ log.now) × (length n.frame.now < 65536)) }
{
    let (frame, rest) = split_frame(log)?;
    Some(Next { frame, rest })
}

impl<'l> Iterator for Frames<'l> {
    type Item = Result<&'l [u8], CutOff>;

    ghost use Rattle.std.specs.Iterator.{at_most};
    ghost use Rattle.frame_log.specs.Log.{left_of, Gives};

    ghost next_gives = { Gives };

    ghost remaining = { λ frames. at_most (length (left_of frames)) };

    fn next(&mut self) -> Option<Result<&'l [u8], CutOff>> {
        if self.rest.is_empty() {
            return None;
        }
        let Some((frame, rest)) = split_frame(self.rest) else {
            // Nothing comes after what is cut off.
            self.rest = &[];
            return Some(Err(CutOff));
        };
        self.rest = rest;
        Some(Ok(frame))
    }
}
