ghost use Rattle.std.specs.Prelude.{◌≡◌};
ghost use Rattle.sib_replay.specs.Ending.{status_of, ending_of};
ghost use Rattle.sib_replay.specs.declared.ending.Fault.TheVariants.{NoMemory as OutOfMemory, WriteFault as SinkFailed};

use m3_terms::NoMemory;
use sib_io::Failed;
use std::alloc::AllocFailed;

/// How a replay ends.
#[derive(Clone, Copy, Debug, PartialEq, Eq)]
pub enum Ending {
    /// The input was read to its end, and is a script.
    Done,
    /// No script begins with the bytes that were read, or the input ended inside an entry.
    BadScript,
    /// The source failed.
    ReadFault,
    /// The sink failed.
    WriteFault,
    /// Out of memory, or the space can count no further call.
    NoMemory,
    /// So many bytes were taken that the end is not waited for.
    Spent,
}

impl Ending {
    /// The exit status.
    pub fn status(self) -> u8
        ensures { result ≡ status_of self }
    {
        match self {
            Ending::Done => 0,
            Ending::BadScript => 3,
            Ending::ReadFault => 4,
            Ending::WriteFault => 5,
            Ending::NoMemory => 6,
            Ending::Spent => 7,
        }
    }
}

/// Why an entry is not answered to its end.
#[derive(Clone, Copy, Debug, PartialEq, Eq)]
pub enum Fault {
    /// Out of memory, or the space can count no further call.
    NoMemory,
    /// The sink failed.
    WriteFault,
}

impl Fault {
    /// How a replay ends at this fault.
    pub fn ending(self) -> Ending
        ensures { result ≡ ending_of self }
    {
        match self {
            Fault::NoMemory => Ending::NoMemory,
            Fault::WriteFault => Ending::WriteFault,
        }
    }
}

impl From<NoMemory> for Fault {
    ghost from_gives = { λ _ fault. fault ≡ OutOfMemory };

    fn from(_refused: NoMemory) -> Fault {
        Fault::NoMemory
    }
}

impl<T: Drop> From<AllocFailed<T>> for Fault {
    ghost from_gives = { λ _ fault. fault ≡ OutOfMemory };

    fn from(_refused: AllocFailed<T>) -> Fault {
        Fault::NoMemory
    }
}

impl From<Failed> for Fault {
    ghost from_gives = { λ _ fault. fault ≡ SinkFailed };

    fn from(_failed: Failed) -> Fault {
        Fault::WriteFault
    }
}
