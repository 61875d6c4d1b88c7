/// The state of a link.
#[derive(Clone, Copy, Debug, PartialEq, Eq)]
pub enum LinkState {
    /// No link has had this number.
    Never,
    /// The link takes messages.
    Open,
    /// The link's input ended or was refused, and messages wait on it.
    Ended,
    /// More was sent on the link than may wait, and messages wait on it.
    Overrun,
    /// The link isn't open, and no message waits on it.
    Gone,
}
