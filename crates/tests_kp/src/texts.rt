//! Texts and words as a run takes them.

use std::alloc::Global;
use std::test::Fail;

/// These texts, one behind the other.
pub(crate) fn together(alloc: Global, parts: &[&str]) -> Result<String, Fail> {
    let mut all = String::new(alloc);
    for part in parts {
        all.push_str(part)?;
    }
    Ok(all)
}

/// These words.
pub(crate) fn owned(alloc: Global, words: &[&str]) -> Result<Vec<String>, Fail> {
    let mut owned = Vec::new(alloc);
    for word in words {
        owned.push(String::from_str(alloc, word)?)?;
    }
    Ok(owned)
}
