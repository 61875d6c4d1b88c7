ghost use Rattle.std.specs.Prelude.{◌≡◌};
ghost use Rattle.kp_talk.specs.Ending.{ending_status};
ghost use Rattle.kp_talk.specs.declared.ending.Ending.TheVariants.{NoMemory as OutOfMemory, WriteFault as SinkFailed};

use crate::Finish;
use m3_terms::NoMemory;
use sib_io::Failed;
use std::alloc::AllocFailed;

/// How a run of a client ends.
#[derive(Clone, Copy, Debug, PartialEq, Eq)]
pub enum Ending {
    /// The talk finished.
    Finished(Finish),
    /// The source failed.
    ReadFault,
    /// A sink failed.
    WriteFault,
    /// Out of memory.
    NoMemory,
    /// So many bytes were taken that the end is not waited for.
    Spent,
}

impl Ending {
    /// The exit status.
    pub fn status(self) -> u8
        ensures { result ≡ ending_status self }
    {
        match self {
            Ending::Finished(finish) => finish.status(),
            Ending::ReadFault => 4,
            Ending::WriteFault => 5,
            Ending::NoMemory => 6,
            Ending::Spent => 7,
        }
    }
}

impl From<NoMemory> for Ending {
    ghost from_gives = { λ _ ending. ending ≡ OutOfMemory };

    fn from(_refused: NoMemory) -> Ending {
        Ending::NoMemory
    }
}

impl<T: Drop> From<AllocFailed<T>> for Ending {
    ghost from_gives = { λ _ ending. ending ≡ OutOfMemory };

    fn from(_refused: AllocFailed<T>) -> Ending {
        Ending::NoMemory
    }
}

impl From<Failed> for Ending {
    ghost from_gives = { λ _ ending. ending ≡ SinkFailed };

    fn from(_failed: Failed) -> Ending {
        Ending::WriteFault
    }
}
