ghost use Rattle.std.specs.Prelude.{◌≡◌};
ghost use Rattle.ssap_shape.specs.Replies.{status_word};
ghost use Rattle.ssap_shape.specs.Told.{is_success as success};

/// The outcome of a request, as its confirm states it.
#[derive(Clone, Copy, Debug, PartialEq, Eq)]
pub enum Status {
    /// The request took effect.
    Success,
    /// The node isn't joined.
    AccessDenied,
    /// The request passes a limit.
    OutOfResources,
    /// The request asks for a part of the protocol that isn't built.
    NotImplemented,
    /// The request is for another space, or has an operand that the space refuses.
    Request,
    /// A parameter is missing.
    Incomplete,
    /// A parameter is doubled, unknown or filled wrongly.
    Syntax,
}

impl Status {
    /// Whether the request took effect.
    pub fn is_success(self) -> bool
        ensures { result ≡ success self }
    {
        match self {
            Status::Success => true,
            Status::AccessDenied
            | Status::OutOfResources
            | Status::NotImplemented
            | Status::Request
            | Status::Incomplete
            | Status::Syntax => false,
        }
    }

    /// The status as it is written in a message.
    #[tactic(auto, unfolding(crate::specs::Replies::status_word))]
    pub fn as_bytes(self) -> &'static [u8]
        ensures { result.now ≡ status_word self }
    {
        match self {
            Status::Success => b"m3:Success",
            Status::AccessDenied => b"m3:SIB.Error.AccessDenied",
            Status::OutOfResources => b"m3:SIB.Failure.OutOfResources",
            Status::NotImplemented => b"m3:SIB.Failure.NotImplemented",
            Status::Request => b"m3:KP.Error.Request",
            Status::Incomplete => b"m3:KP.Error.Message.Incomplete",
            Status::Syntax => b"m3:KP.Error.Message.Syntax",
        }
    }
}
