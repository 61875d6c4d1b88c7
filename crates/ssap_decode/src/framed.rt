ghost use Rattle.std.specs.Prelude.{◌≡◌};
ghost use Rattle.ssap_decode.specs.declared.framed.Stop.TheVariants.{NoMemory};

use m3_terms::NoMemory as Refused;
use ssap_items::Envelope;
use std::alloc::AllocError;
use thiserror::Error;

/// The most bytes that one message may have.
pub const MESSAGE_LIMIT: usize = 4_194_304;

/// A message of a stream: the offset of its first byte and that behind its last one, both counted from 0, and what it says.
#[derive(Debug, Drop)]
pub struct Framed {
    pub start: u64,
    pub end: u64,
    pub envelope: Envelope,
}

/// Why a decoder reads no further. Offsets count from 0 at the first byte.
#[derive(Clone, Copy, Debug, PartialEq, Eq, Error)]
pub enum Stop {
    /// The bytes before `place` are the longest prefix that begins some stream.
    #[error("no message goes on with byte {place}")]
    Syntax { place: u64 },
    /// The message that begins at `start` goes on above the limit.
    #[error("the message that begins at byte {start} is too long")]
    TooLong { start: u64 },
    /// The bytes end inside the message that begins at `start`.
    #[error("the message that begins at byte {start} is cut off")]
    Cut { start: u64 },
    /// The system gave no memory.
    #[error("out of memory")]
    NoMemory,
}

impl From<AllocError> for Stop {
    ghost from_gives = { λ _ stop. stop ≡ NoMemory };

    fn from(_refused: AllocError) -> Stop {
        Stop::NoMemory
    }
}

impl From<Refused> for Stop {
    ghost from_gives = { λ _ stop. stop ≡ NoMemory };

    fn from(_refused: Refused) -> Stop {
        Stop::NoMemory
    }
}
