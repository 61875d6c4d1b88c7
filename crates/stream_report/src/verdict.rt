/// What a report says of an input.
#[derive(Clone, Copy, Debug, PartialEq, Eq)]
pub enum Report {
    /// Each message in its canonical spelling.
    Show,
    /// The number of messages.
    Check,
}

/// Why an input is no stream.
#[derive(Clone, Copy, Debug, PartialEq, Eq)]
pub enum Fault {
    /// No message goes on with a byte.
    Syntax,
    /// A message is too long.
    Long,
    /// The input ends inside a message.
    Cut,
}

/// How an input ends.
#[derive(Clone, Copy, Debug, PartialEq, Eq)]
pub enum Verdict {
    /// The input is a stream, and no message is too long.
    Fine,
    /// It is none from this offset on, or no more than a part of the message that begins there. Offsets count from 0.
    Stops { place: u64, fault: Fault },
}
