ghost use Rattle.std.specs.Prelude.{◌≡◌};
ghost use Rattle.stream_report.specs.Ending.{status_of};
ghost use Rattle.stream_report.specs.Report.{ending_of};
ghost use Rattle.stream_report.specs.declared.ending.Ending.TheVariants.{WriteFault as SinkFailed};

use crate::Verdict;
use sib_io::Failed;

/// How a report ends.
#[derive(Clone, Copy, Debug, PartialEq, Eq)]
pub enum Ending {
    /// The input was read to its end and is a stream, and no message of it is too long.
    Done,
    /// The input is no stream, or a message of it is too long.
    Stopped,
    /// The source failed.
    ReadFault,
    /// The sink failed.
    WriteFault,
    /// Out of memory.
    NoMemory,
    /// So many bytes were taken that the end is not waited for.
    Spent,
}

impl Ending {
    /// The exit status.
    pub fn status(self) -> u8
        ensures { result ≡ status_of self }
    {
        match self {
            Ending::Done => 0,
            Ending::Stopped => 1,
            Ending::ReadFault => 4,
            Ending::WriteFault => 5,
            Ending::NoMemory => 6,
            Ending::Spent => 7,
        }
    }

    /// How a report of an input with this verdict ends when all of it was written.
    pub(crate) fn of(verdict: Verdict) -> Ending
        ensures { result ≡ ending_of verdict }
    {
        match verdict {
            Verdict::Fine => Ending::Done,
            Verdict::Stops { .. } => Ending::Stopped,
        }
    }
}

impl From<Failed> for Ending {
    ghost from_gives = { λ _ ending. ending ≡ SinkFailed };

    fn from(_failed: Failed) -> Ending {
        Ending::WriteFault
    }
}
