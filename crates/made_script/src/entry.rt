ghost use Rattle.std.specs.Prelude.{◌≡◌, IfOk};
ghost use Rattle.sib_script.specs.Script.{IsEntry};
ghost use Rattle.made_script.specs.Made.{entry_at};

use crate::request::message;
use m3_terms::NoMemory;
use sib_script::Entry;
use std::alloc::Global;

/// The entry at a position of the script, counted from 0: the link opens, the node joins, fifty subscriptions follow, and
/// then updates without an end. The entry may stand in a script, so it can be written.
pub fn made_entry(alloc: Global, position: u64) -> Result<Entry, NoMemory>
    ensures entry { IfOk result (λ entry. entry ≡ entry_at position) }
    ensures allowed { IfOk result IsEntry }
{
    if position == 0 {
        return Ok(Entry::NewLink);
    }
    let bytes = message(alloc, position)?;
    Ok(Entry::Bytes { link: 1, bytes })
}
