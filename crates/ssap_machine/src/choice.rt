ghost use Rattle.std.specs.Prelude.{◌≡◌, ◌≤◌, length};
ghost use Rattle.ssap_machine.specs.Choosing.{common, Finds};

use crate::{Seen, Symbol};
use ssap_items::TagName;

/// The symbols that stand in the place of one, once its word was read.
#[derive(Clone, Copy)]
pub(crate) enum Pushes {
    Nothing,
    One(Symbol),
    Two(Symbol, Symbol),
    /// The rest of a header, and of the message in which it stands from then on.
    Header(TagName, Seen),
    /// The rest of a declaration, and the message's element.
    Declaration,
    /// The rest of the encoding, and of its declaration.
    Encoding,
    /// The rest of the one attribute that the element may have, and of the element.
    Valued(TagName),
    /// The rest of an attribute of any value, and the symbol.
    Named(Symbol),
    /// The rest of a list's item that has a name, and of the list.
    Listed(TagName, TagName),
    /// The symbol, and the finishing tag behind it.
    Within(Symbol, TagName),
    /// The content of an element, and its finishing tag.
    Content(TagName),
}

/// A word that may be next, if it is allowed, and what is then pushed.
#[derive(Clone, Copy)]
pub(crate) struct Candidate<'a> {
    pub allowed: bool,
    pub word: &'a [u8],
    pub pushes: Pushes,
}

/// Which word stands at the start of the bytes.
#[derive(Clone, Copy)]
pub(crate) enum Found {
    /// A whole word, of so many bytes.
    Whole { count: usize, pushes: Pushes },
    /// The bytes are a prefix of a word, and end before it does.
    Half,
    /// No word goes on with the byte at this offset.
    Stuck { place: usize },
}

/// The length of the prefix that a word and the bytes have in common. Mostly the whole word stands there, so this is
/// tested first, many bytes at once.
#[inline(always)]
fn common_front(word: &[u8], bytes: &[u8]) -> usize
    ensures { result ≡ common word.now bytes.now }
{
    if bytes.starts_with(word) {
        return word.len();
    }
    let end = word.len().min(bytes.len());
    for at in 0..end {
        if word[at] != bytes[at] {
            return at;
        }
    }
    end
}

/// Finds which of the words stands at the start of the bytes.
#[inline(always)]
pub(crate) fn find(candidates: &[Candidate], bytes: &[u8]) -> Found
    ensures { Finds candidates.now bytes.now result }
{
    let mut longest = 0;
    for candidate in candidates {
        if candidate.allowed {
            let common = common_front(candidate.word, bytes);
            if common == candidate.word.len() {
                return Found::Whole {
                    count: common,
                    pushes: candidate.pushes,
                };
            }
            longest = longest.max(common);
        }
    }
    if longest == bytes.len() {
        Found::Half
    } else {
        Found::Stuck { place: longest }
    }
}
