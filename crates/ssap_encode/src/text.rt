ghost use Rattle.std.specs.Prelude.{◌≡◌, ◌∷◌, [], MatchOption};
ghost use Rattle.ssap_items.specs.Canon.{escaped_byte, escaped};
ghost use Rattle.ssap_encode.specs.Sending.{Sends};

use crate::out::Out;
use crate::spell::{Raw, Spell, in_order};

/// A text, or the value of an attribute, with its references.
#[derive(Drop)]
pub struct Escaped<'a>(pub &'a [u8]);

impl Spell for Escaped<'_> {
    ghost spelling = { λ s. escaped s.0.now };

    fn put<O: Out>(&self, out: &mut O) -> Result<(), O::Fault> {
        put_escaped(out, self.0)
    }
}

/// The reference that stands for a byte, or `None` where the byte stands for itself.
fn reference_of(byte: u8) -> Option<&'static [u8]>
    ensures { MatchOption result (escaped_byte byte ≡ byte ∷ []) (λ reference. reference.now ≡ escaped_byte byte) }
{
    match byte {
        b'&' => Some(b"&amp;"),
        b'<' => Some(b"&lt;"),
        b'>' => Some(b"&gt;"),
        b'"' => Some(b"&quot;"),
        b'\t' => Some(b"&#9;"),
        b'\n' => Some(b"&#10;"),
        b'\r' => Some(b"&#13;"),
        _ => None,
    }
}

// Puts a text with its references. What needs none goes out in runs.
fn put_escaped<O: Out>(out: &mut O, text: &[u8]) -> Result<(), O::Fault>
    ensures { Sends O.puts O.stops out.old out.new result (escaped text.now) }
{
    let mut from = 0;
    for (at, byte) in text.iter().enumerate() {
        if let Some(reference) = reference_of(*byte) {
            in_order!(Raw(&text[from..at]), Raw(reference)).put(out)?;
            from = at + 1;
        }
    }
    out.put(&text[from..])
}
