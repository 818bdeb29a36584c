ghost use Rattle.std.specs.Prelude.{◌≡◌};
ghost use Rattle.frame.specs.Faults.{refusal_of};

use refusal::{Layer, Refusal};

// What is wrong with a frame or with a buffer for one; an offset is that of the field's first byte.
#[derive(Clone, Copy, PartialEq, Eq, Debug)]
pub enum FrameFault {
    EndsInside { offset: usize },
    TagUnknown { offset: usize },
    TagNotRising { offset: usize },
    LengthWrong { offset: usize },
    FieldMissing { tag: u8 },
    BufferShort { needed: usize },
}

impl From<FrameFault> for Refusal {
    ghost from_gives = { λ e r. r ≡ refusal_of e };

    fn from(fault: FrameFault) -> Refusal {
        let (layer, number, place) = match fault {
            FrameFault::EndsInside { offset } => (Layer::Frame, 1, offset),
            FrameFault::TagUnknown { offset } => (Layer::Frame, 2, offset),
            FrameFault::TagNotRising { offset } => (Layer::Frame, 3, offset),
            FrameFault::LengthWrong { offset } => (Layer::Frame, 4, offset),
            FrameFault::FieldMissing { tag } => (Layer::Frame, 5, usize::from(tag)),
            FrameFault::BufferShort { needed } => (Layer::Book, 20, needed),
        };
        Refusal {
            layer,
            number,
            place,
        }
    }
}
