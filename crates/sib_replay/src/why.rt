ghost use Rattle.std.specs.Prelude.{◌≡◌, Some, IfOk};
ghost use Rattle.sib_replay.specs.Output.{place_of, kind_of};
ghost use Rattle.sib_replay.specs.Session.{why_of};

use m3_terms::NoMemory;
use ssap_decode::Stop;

/// Why a link stops. Places count the bytes of the link, from 0.
#[derive(Clone, Copy, Debug, PartialEq, Eq)]
pub enum Why {
    /// No message goes on with the byte at `place`.
    Syntax { place: u64 },
    /// The message that begins at `start` is too long.
    Long { start: u64 },
    /// The bytes end inside the message that begins at `start`.
    Cut { start: u64 },
    /// The message that begins at `start` is no request.
    Request { start: u64 },
    /// More would wait on the link than may.
    Overrun,
}

impl Why {
    /// Why a link stops where its decoder did.
    pub fn of(stop: Stop) -> Result<Why, NoMemory>
        ensures { IfOk result (λ why. why_of stop ≡ Some why) }
    {
        match stop {
            Stop::Syntax { place } => Ok(Why::Syntax { place }),
            Stop::TooLong { start } => Ok(Why::Long { start }),
            Stop::Cut { start } => Ok(Why::Cut { start }),
            Stop::NoMemory => Err(NoMemory),
        }
    }

    /// The place that is told.
    pub fn place(self) -> u64
        ensures { result ≡ place_of self }
    {
        match self {
            Why::Syntax { place } => place,
            Why::Long { start } | Why::Cut { start } | Why::Request { start } => start,
            Why::Overrun => 0,
        }
    }

    /// The word that is told.
    #[tactic(auto, unfolding(crate::specs::Output::kind_of))]
    pub fn kind(self) -> &'static str
        ensures { result.now ≡ kind_of self }
    {
        match self {
            Why::Syntax { place: _ } => "syntax",
            Why::Long { start: _ } => "long",
            Why::Cut { start: _ } => "cut",
            Why::Request { start: _ } => "request",
            Why::Overrun => "overrun",
        }
    }
}
