//! How a pump ends.

/// How a pump of input ends.
#[derive(Clone, Copy, Debug, PartialEq, Eq)]
pub enum InEnd {
    /// The input ended, and no message was cut.
    Ended,
    /// No stream goes on with the byte at this offset.
    Syntax { place: u64 },
    /// The message that starts at this offset is too long.
    TooLong { start: u64 },
    /// The input ended inside the message that starts at this offset.
    Cut { start: u64 },
    /// The message that starts at this offset is no request.
    NotRequest { start: u64 },
    /// The link was no longer open when a message was delivered.
    Closed,
    /// The source failed.
    ReadFault,
    /// So many bytes were taken that the end is not waited for.
    Spent,
    /// The history has as many calls as it may have.
    Worn { count: u64 },
    /// Out of memory.
    NoMemory,
}

/// How a pump of output ends.
#[derive(Clone, Copy, Debug, PartialEq, Eq)]
pub enum OutEnd {
    /// The link isn't open any more, and all that was sent on it was written.
    Over,
    /// The sink failed, so the link is lost.
    WriteFault,
    /// The history has as many calls as it may have.
    Worn { count: u64 },
}
