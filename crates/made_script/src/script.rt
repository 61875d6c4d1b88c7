ghost use Rattle.std.specs.Prelude.{◌≡◌, ◌+◌, ◌<◌, ◌^◌, length};
ghost use Rattle.sib_io.specs.Causes.{Writes};
ghost use Rattle.sib_script.specs.Script.{entry_spelling};
ghost use Rattle.made_script.specs.Made.{entry_at, made_len as len_of, made_entries, made_script};
ghost use Rattle.made_script.specs.Making.{HasMakingCause};

use crate::made_entry;
use sib_io::Sink;
use sib_script::write_entry;
use ssap_encode::EncodeFault;
use std::alloc::Global;

/// How many entries the script with so many updates has.
pub fn made_len(updates: u64) -> u64
    requires few { updates + 52 < 2 ^ 64 }
    ensures count { result ≡ len_of updates }
    ensures entries { result ≡ length (made_entries updates) }
{
    52 + updates
}

/// Writes the entry at a position of the script.
fn write_made<K: Sink>(alloc: Global, position: u64, sink: &mut K) -> Result<(), EncodeFault>
    ensures written { Writes (K.given sink.old) (K.given sink.new) result (entry_spelling (entry_at position)) }
    ensures cause { HasMakingCause (K.faults sink.old) (K.faults sink.new) result }
{
    let Ok(entry) = made_entry(alloc, position) else {
        return Err(EncodeFault::NoMemory);
    };
    match write_entry(&entry, sink) {
        Ok(()) => Ok(()),
        Err(_) => Err(EncodeFault::WriteFault),
    }
}

/// Writes the script with so many updates to a sink, entry by entry, with one at hand at a time. It does not flush the sink.
///
/// After a fault the sink was given a prefix of the script. `WriteFault` is answered only where the sink's count of faults
/// rose, and `NoMemory` only where the system gave no memory for an entry.
pub fn make_script<K: Sink>(alloc: Global, updates: u32, sink: &mut K) -> Result<(), EncodeFault>
    ensures written { Writes (K.given sink.old) (K.given sink.new) result (made_script updates) }
    ensures cause { HasMakingCause (K.faults sink.old) (K.faults sink.new) result }
{
    for position in 0..made_len(u64::from(updates)) {
        write_made(alloc, position, sink)?;
    }
    Ok(())
}
