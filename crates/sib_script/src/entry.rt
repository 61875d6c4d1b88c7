use m3_terms::Bytes;

/// The most bytes that one delivery may have.
pub const PIECE_LIMIT: usize = 65536;

/// One entry of a script: the next link opens, bytes come on a link, or a link's input ends.
///
/// A link's number is at least 1, and a delivery has at most [`PIECE_LIMIT`] bytes.
#[derive(Debug, Drop)]
pub enum Entry {
    NewLink,
    Bytes { link: u32, bytes: Bytes },
    End { link: u32 },
}
