ghost use Rattle.std.specs.Prelude.{◌≡◌};
ghost use Rattle.desk.specs.declared.failed.Failed.TheVariants.{Refused, Error, Memory};

use commands::Reason;
use refusal::Refusal;
use std::alloc::AllocError;
use std::fmt;

// Why a command has no answer: a call refused it, it is not understood, or there is no memory to answer it.
#[derive(Drop, Debug)]
pub enum Failed {
    Refused(Refusal),
    Error(Reason),
    Memory,
}

impl From<Refusal> for Failed {
    ghost from_gives = { λ e r. r ≡ Refused e };

    fn from(e: Refusal) -> Failed {
        Failed::Refused(e)
    }
}

impl From<Reason> for Failed {
    ghost from_gives = { λ e r. r ≡ Error e };

    fn from(e: Reason) -> Failed {
        Failed::Error(e)
    }
}

impl From<AllocError> for Failed {
    ghost from_gives = { λ _ r. r ≡ Memory };

    fn from(_: AllocError) -> Failed {
        Failed::Memory
    }
}

impl From<fmt::Error> for Failed {
    ghost from_gives = { λ _ r. r ≡ Memory };

    fn from(_: fmt::Error) -> Failed {
        Failed::Memory
    }
}
