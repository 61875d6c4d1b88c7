ghost use Rattle.std.specs.Prelude.{◌↔◌, IsTrue, IfOk, SomeIff};
ghost use Rattle.m3_terms.specs.Text.{IsText};

use m3_terms::{NoMemory, TermFault, Text, text_len};
use std::alloc::Global;

/// The text of these bytes, where they are one.
pub fn text_of(alloc: Global, bytes: &[u8]) -> Result<Option<Text>, NoMemory>
    ensures { IfOk result (λ found. SomeIff found (IsText bytes.now) bytes.now) }
{
    match Text::read(alloc, bytes) {
        Ok(text) => Ok(Some(text)),
        Err(TermFault::NoMemory) => Err(NoMemory),
        Err(_) => Ok(None),
    }
}

/// Whether bytes are a text.
pub fn is_text(bytes: &[u8]) -> bool
    ensures { IsTrue result ↔ IsText bytes.now }
{
    text_len(bytes) == bytes.len()
}
