ghost use Rattle.std.specs.Prelude.{◌↔◌, IsTrue};
ghost use Rattle.memchr.specs.Find.{IsFirstByte};
ghost use Rattle.ssap_text.specs.Pieces.{is_mark, Follows};

use memchr::{memchr2, memchr3};

/// What stands behind a text: the `</` of a finishing tag, or the quote of an attribute's value.
#[derive(Clone, Copy)]
pub enum End {
    Tag,
    DoubleQuote,
    SingleQuote,
}

impl End {
    /// The offset of the first byte that is no part of a plain character: `<`, `&`, or the quote.
    pub fn first_mark(self, bytes: &[u8]) -> Option<usize>
        ensures { IsFirstByte (is_mark self) bytes.now result }
    {
        match self {
            End::Tag => memchr2(b'<', b'&', bytes),
            End::DoubleQuote => memchr3(b'<', b'&', b'"', bytes),
            End::SingleQuote => memchr3(b'<', b'&', b'\'', bytes),
        }
    }

    /// Whether the end stands at the start.
    pub fn begins(self, bytes: &[u8]) -> bool
        ensures { IsTrue result ↔ Follows self bytes.now }
    {
        match self {
            End::Tag => bytes.starts_with(b"</"),
            End::DoubleQuote => bytes.starts_with(b"\""),
            End::SingleQuote => bytes.starts_with(b"'"),
        }
    }
}
