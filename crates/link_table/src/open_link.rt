/// A link that is open.
#[derive(Clone, Copy, Debug, PartialEq, Eq)]
pub struct OpenLink {
    pub number: u32,
    /// How many messages wait on it.
    pub waiting: usize,
}
