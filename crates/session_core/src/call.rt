use crate::ring::Ring;
use m3_terms::Bytes;
use ssap_shape::Arrived;

/// What can be asked of a space. Links go by their numbers.
#[derive(Debug, Drop)]
pub enum Call {
    /// The next link opens.
    NewLink,
    /// A message came on a link, and comes to this.
    Deliver(u32, Arrived),
    /// The input of a link ended.
    End(u32),
    /// A link is lost: nothing more comes on it, and nothing can be sent on it.
    Lost(u32),
    /// The message that waits longest on a link is wanted.
    Take(u32),
}

/// What a space answers to a call.
#[derive(Debug, Drop)]
pub enum Reply {
    /// The link of this number opened.
    Opened(u32),
    /// No link may open beside so many that are open or have messages that wait, or no number is left.
    TooManyLinks { count: u32 },
    /// The call was done. The ring has the links that were sent a message or ended.
    Done { ring: Ring },
    /// The link was opened once, and isn't open.
    Closed,
    /// No link has had this number.
    NoLink,
    /// The message that waited longest.
    Message(Bytes),
    /// The link is open, and no message waits on it.
    Empty,
    /// The link isn't open, and no message waits on it.
    Over,
}
