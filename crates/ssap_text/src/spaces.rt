ghost use Rattle.std.specs.Prelude.{◌≡◌};
ghost use Rattle.ssap_grammar.specs.Characters.{is_white, Spaces};
ghost use Rattle.ssap_text.specs.Ends.{NoWhite};

/// Whether a byte is a space, a tab, a carriage return or a line feed.
fn is_space(byte: u8) -> bool
    ensures { result ≡ is_white byte }
{
    matches!(byte, b' ' | b'\t' | b'\r' | b'\n')
}

/// The bytes behind the white space at the start: spaces, tabs, carriage returns and line feeds.
pub fn skip_spaces(bytes: &[u8]) -> &[u8]
    ensures spaces { Spaces bytes.now result.now }
    ensures stops { NoWhite result.now }
{
    let mut rest = bytes;
    while let [byte, more @ ..] = rest {
        if !is_space(*byte) {
            return rest;
        }
        rest = more;
    }
    rest
}
