//! Texts from plain words and from numbers.
ghost use Rattle.std.specs.Prelude.{◌≡◌, IfOk, IsTrue};
ghost use Rattle.std.specs.Fmt.{decimal};
ghost use Rattle.ssap_shape.specs.Plain.{is_plain};

use m3_terms::{NoMemory, TermFault, Text};
use std::alloc::Global;

/// The text of a plain word.
pub fn plain(alloc: Global, word: &[u8]) -> Result<Text, NoMemory>
    requires { IsTrue (is_plain word.now) }
    ensures { IfOk result (λ text. text ≡ word.now) }
{
    match Text::read(alloc, word) {
        Ok(text) => Ok(text),
        Err(TermFault::NoMemory) => Err(NoMemory),
        Err(TermFault::Empty) => unreachable!(),
        Err(TermFault::TooLong { .. }) => unreachable!(),
        Err(TermFault::NotText { .. }) => unreachable!(),
    }
}

/// The text of a number in decimal.
pub fn number_text(alloc: Global, number: u64) -> Result<Text, NoMemory>
    ensures { IfOk result (λ text. text ≡ decimal number) }
{
    let digits = format!(in alloc; "{number}")?;
    plain(alloc, digits.as_bytes())
}
