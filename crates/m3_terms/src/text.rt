ghost use Rattle.std.specs.Prelude.{◌≡◌, List, ℕ, ◌≤◌, length, take, IfOk, IfErr, IsTrue, ◌↔◌, [], slice_get, option_copied, not};
ghost use Rattle.m3_terms.specs.Text.{IsText, TextFault, is_allowed};

use crate::plain::plain_len;
use crate::{NoMemory, TermFault};
use std::alloc::Global;
use std::marker::Model;

/// A text: allowed characters (those of XML 1.0's Char, section 2.2) in UTF-8. Contracts see its bytes.
#[derive(Debug, Drop)]
pub struct Text {
    bytes: Vec<u8>,
}

impl Model for Text {
    ghost use Rattle.std.specs.Prelude.{List, ℕ};
    ghost use Rattle.m3_terms.specs.Text.{IsText};

    ghost Value = { List ℕ };

    ghost view = { λ t. t.bytes.items };

    ghost invariant = { λ t. ∥ IsText t.bytes.items ∥₁ };
}

/// Whether a character is not allowed in a text.
fn is_refused(character: char) -> bool
    ensures { result ≡ not (is_allowed character) }
{
    !matches!(
        character,
        '\t' | '\n' | '\r' | ' '..='\u{D7FF}' | '\u{E000}'..='\u{FFFD}' | '\u{10000}'..='\u{10FFFF}'
    )
}

/// The length of the longest prefix of a text in UTF-8 in which each character is allowed.
fn allowed_len(text: &str) -> usize
    ensures within { result ≤ length text.now }
    ensures text { IsText (take result text.now) }
    ensures longest { (n : ℕ) → n ≤ length text.now → IsText (take n text.now) → n ≤ result }
{
    match text.find(is_refused) {
        Some(place) => place,
        None => text.len(),
    }
}

/// The length of the longest prefix of the bytes that is a text, decoded character by character.
fn decoded_len(bytes: &[u8]) -> usize
    ensures within { result ≤ length bytes.now }
    ensures text { IsText (take result bytes.now) }
    ensures longest { (n : ℕ) → n ≤ length bytes.now → IsText (take n bytes.now) → n ≤ result }
{
    match bytes.utf8_chunks().next() {
        Some(chunk) => allowed_len(chunk.valid()),
        None => 0,
    }
}

/// The length of the longest prefix of the bytes that is a text, so made of whole allowed characters. A run of ASCII
/// at the start is skipped a block at a time, and only what follows it is decoded.
pub fn text_len(bytes: &[u8]) -> usize
    ensures within { result ≤ length bytes.now }
    ensures text { IsText (take result bytes.now) }
    ensures longest { (n : ℕ) → n ≤ length bytes.now → IsText (take n bytes.now) → n ≤ result }
{
    let plain = plain_len(bytes);
    plain + decoded_len(&bytes[plain..])
}

impl Text {
    /// The text of these bytes, which are tested once and copied once. `NotText` has the length of the longest prefix
    /// made of whole allowed characters.
    pub fn read(alloc: Global, bytes: &[u8]) -> Result<Text, TermFault>
        ensures ok { IfOk result (λ text. (text ≡ bytes.now) × IsText bytes.now) }
        ensures fault { IfErr result (TextFault bytes.now) }
    {
        let place = text_len(bytes);
        if place < bytes.len() {
            return Err(TermFault::NotText { place });
        }
        Ok(Text {
            bytes: Vec::from_slice(alloc, bytes)?,
        })
    }

    /// The bytes of the text.
    pub fn as_bytes(&self) -> &[u8]
        ensures value { result.now ≡ self.now }
        ensures text { IsText result.now }
    {
        self.bytes.as_slice()
    }

    /// How many bytes the text has.
    pub fn len(&self) -> usize
        ensures { result ≡ length self.now }
    {
        self.bytes.len()
    }

    /// Whether the text has no byte.
    pub fn is_empty(&self) -> bool
        ensures { IsTrue result ↔ (self.now ≡ []) }
    {
        self.bytes.is_empty()
    }

    /// The byte at an offset, or `None` from the end on.
    pub fn get(&self, at: usize) -> Option<&u8>
        ensures { option_copied result ≡ slice_get self.now at }
    {
        self.bytes.get(at)
    }

    /// An equal text, in memory of its own.
    pub fn copy(&self) -> Result<Text, NoMemory>
        ensures { IfOk result (λ text. text ≡ self.now) }
    {
        Ok(Text {
            bytes: Vec::from_slice(*self.bytes.allocator(), self.bytes.as_slice())?,
        })
    }
}
