//! The tokens of a text, one at a time.
ghost use Rattle.std.specs.Prelude.{◌≤◌, length};
ghost use Rattle.sparql_text.specs.Cutting.{IsNext, GoesOn};

use crate::Lexeme;
use crate::gap::skip_gap;
use crate::token::read_token;

/// What stands next in a text.
#[derive(Clone, Copy, Debug)]
pub enum Next<'a> {
    /// A token, the offset of its first byte, and the bytes behind it.
    Token {
        lexeme: Lexeme<'a>,
        place: usize,
        rest: &'a [u8],
    },
    /// The end of the text.
    End,
    /// Bytes that are no token, at this offset.
    NoToken {
        place: usize,
    },
}

/// The next token in the last bytes of a text of `total` bytes, behind white space and comments. It takes no memory.
pub fn next_token(total: usize, bytes: &[u8]) -> Next<'_>
    requires { length bytes.now ≤ total }
    ensures next { IsNext total bytes.now result }
    ensures goes_on { GoesOn bytes.now result }
{
    let rest = skip_gap(bytes);
    if rest.is_empty() {
        return Next::End;
    }
    let place = total - rest.len();
    match read_token(rest) {
        Some((lexeme, rest)) => Next::Token {
            lexeme,
            place,
            rest,
        },
        None => Next::NoToken { place },
    }
}
