ghost use Rattle.std.specs.Prelude.{◌≡◌};
ghost use Rattle.kp_talk.specs.Lines.{status_of};

use ssap_shape::Status;

/// How the bytes of a link break a stream of messages.
#[derive(Clone, Copy, Debug, PartialEq, Eq)]
pub enum Break {
    /// No message goes on with the byte.
    Syntax,
    /// The message is too long.
    Long,
    /// The bytes end inside the message.
    Cut,
}

/// How a talk finishes.
#[derive(Clone, Copy, Debug, PartialEq, Eq)]
pub enum Finish {
    /// All confirms came.
    Done,
    /// A confirm has this status, which is not success.
    Refused(Status),
    /// The subscription ended with this status.
    Ended(Status),
    /// A difference of another subscription came.
    BrokenSubscription { want: u64, got: u64 },
    /// A difference came under another number than the next.
    BrokenGap { want: u64, got: u64 },
    /// A difference of another form came.
    BrokenForm,
    /// A difference came that conflicts with the answer.
    BrokenConflict,
    /// A message came that was not awaited, or that lacks what it must tell.
    BrokenMessage,
    /// The bytes are no stream from this place on, or no more than a part of the message that begins there.
    BrokenStream { place: u64, kind: Break },
    /// The input ended between messages.
    Over,
}

impl Finish {
    /// The exit status.
    pub fn status(self) -> u8
        ensures { result ≡ status_of self }
    {
        match self {
            Finish::Done => 0,
            Finish::Refused(_) | Finish::Ended(_) => 8,
            Finish::BrokenSubscription { .. }
            | Finish::BrokenGap { .. }
            | Finish::BrokenForm
            | Finish::BrokenConflict
            | Finish::BrokenMessage
            | Finish::BrokenStream { .. } => 9,
            Finish::Over => 10,
        }
    }
}
