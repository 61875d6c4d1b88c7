//! The values of strings.
ghost use Rattle.std.specs.Prelude.{◌≡◌, ◌∷◌, ◌++◌, ◌<◌, [], length, unwrap_or, IfOk, IfSome, IfNone};
ghost use Rattle.sparql_text.specs.Tokens.{escape_of};
ghost use Rattle.sparql_text.specs.Values.{unescaped};

use m3_terms::NoMemory;
use std::alloc::Global;

/// The byte that a letter behind `\` stands for, or the letter itself where it stands for none.
fn escaped(letter: u8) -> u8
    ensures { result ≡ unwrap_or (escape_of letter) letter }
{
    match letter {
        b't' => b'\t',
        b'n' => b'\n',
        b'r' => b'\r',
        _ => letter,
    }
}

/// The value's first byte, and the raw bytes behind those that it is written with.
fn first_value(raw: &[u8]) -> Option<(u8, &[u8])>
    ensures some { IfSome result (λ p. unescaped raw.now ≡ p.0 ∷ unescaped p.1.now) }
    ensures less { IfSome result (λ p. length p.1.now < length raw.now) }
    ensures none { IfNone result (raw.now ≡ []) }
{
    let (byte, more) = raw.split_first()?;
    match more.split_first() {
        Some((letter, behind)) => {
            if *byte == b'\\' {
                Some((escaped(*letter), behind))
            } else {
                Some((*byte, more))
            }
        }
        None => Some((*byte, more)),
    }
}

/// The bytes that raw bytes of a string stand for.
pub(crate) fn unescaped(alloc: Global, raw: &[u8]) -> Result<Vec<u8>, NoMemory>
    ensures { IfOk result (λ value. value.items ≡ unescaped raw.now) }
{
    let mut value = Vec::new(alloc);
    let mut rest = raw;
    'pieces: while !rest.is_empty() {
        let Some((byte, behind)) = first_value(rest) else {
            return Ok(value);
        };
        value.push(byte)?;
        rest = behind;
    }
    Ok(value)
}
