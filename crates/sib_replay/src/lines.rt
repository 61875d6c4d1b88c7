ghost use Rattle.std.specs.Prelude.{◌≡◌, IfOk};
ghost use Rattle.sib_replay.specs.Doing.{seen, Acts};
ghost use Rattle.sib_replay.specs.Output.{header_line, message_lines, stop_line, stop_lines, closed_line, full_line, fault_line};

use crate::ending::Fault;
use crate::why::Why;
use m3_terms::{Bytes, NoMemory};
use sib_io::Sink;
use std::alloc::Global;

/// Gives bytes to a sink.
pub fn write<K: Sink>(sink: &mut K, bytes: &[u8]) -> Result<(), Fault>
    ensures { Acts (seen (K.given sink.old) (K.faults sink.old) 0) (seen (K.given sink.new) (K.faults sink.new) 0) result bytes.now 0 }
{
    match sink.write_all(bytes) {
        Ok(()) => Ok(()),
        Err(_) => Err(Fault::WriteFault),
    }
}

/// Writes a message behind a line with its link and its length. Its bytes go to the sink as they are.
pub fn write_message<K: Sink>(
    alloc: Global,
    sink: &mut K,
    link: u32,
    message: &Bytes,
) -> Result<(), Fault>
    ensures { Acts (seen (K.given sink.old) (K.faults sink.old) 0) (seen (K.given sink.new) (K.faults sink.new) 0) result (message_lines link message.now) 0 }
{
    write(sink, &header(alloc, link, message.len())?)?;
    write(sink, message.as_slice())?;
    write(sink, b"\n")
}

/// Writes the line of a link that stops, if it does.
pub fn write_stop<K: Sink>(
    alloc: Global,
    sink: &mut K,
    link: u32,
    stop: Option<Why>,
) -> Result<(), Fault>
    ensures { Acts (seen (K.given sink.old) (K.faults sink.old) 0) (seen (K.given sink.new) (K.faults sink.new) 0) result (stop_lines link stop) 0 }
{
    match stop {
        Some(why) => write(sink, &stopped(alloc, link, why)?),
        None => Ok(()),
    }
}

/// Writes the line where no link may open, beside so many that count.
pub fn write_full<K: Sink>(alloc: Global, sink: &mut K, count: u32) -> Result<(), Fault>
    ensures { Acts (seen (K.given sink.old) (K.faults sink.old) 0) (seen (K.given sink.new) (K.faults sink.new) 0) result (full_line count) 0 }
{
    write(sink, &full(alloc, count)?)
}

/// Writes the line of an entry whose link isn't open.
pub fn write_closed<K: Sink>(alloc: Global, sink: &mut K, link: u32) -> Result<(), Fault>
    ensures { Acts (seen (K.given sink.old) (K.faults sink.old) 0) (seen (K.given sink.new) (K.faults sink.new) 0) result (closed_line link) 0 }
{
    write(sink, &closed(alloc, link)?)
}

/// The line of an input that is no script, whose fault stands at this place.
#[tactic(auto, unfolding(crate::specs::Output::fault_line))]
pub fn fault(alloc: Global, place: u64) -> Result<Vec<u8>, NoMemory>
    ensures { IfOk result (λ line. line.items ≡ fault_line place) }
{
    Ok(format!(in alloc; "? {place}\n")?.into_bytes())
}

// The line before a message.
#[tactic(auto, unfolding(crate::specs::Output::header_line))]
fn header(alloc: Global, link: u32, count: usize) -> Result<Vec<u8>, NoMemory>
    ensures { IfOk result (λ line. line.items ≡ header_line link count) }
{
    Ok(format!(in alloc; "<{link} {count}\n")?.into_bytes())
}

// The line where no link may open.
#[tactic(auto, unfolding(crate::specs::Output::full_line))]
fn full(alloc: Global, count: u32) -> Result<Vec<u8>, NoMemory>
    ensures { IfOk result (λ line. line.items ≡ full_line count) }
{
    Ok(format!(in alloc; "!0 {count} full\n")?.into_bytes())
}

// The line of an entry whose link isn't open.
#[tactic(auto, unfolding(crate::specs::Output::closed_line))]
fn closed(alloc: Global, link: u32) -> Result<Vec<u8>, NoMemory>
    ensures { IfOk result (λ line. line.items ≡ closed_line link) }
{
    Ok(format!(in alloc; "!{link} 0 closed\n")?.into_bytes())
}

// The line of a link that stops.
#[tactic(auto, unfolding(crate::specs::Output::stop_line))]
fn stopped(alloc: Global, link: u32, why: Why) -> Result<Vec<u8>, NoMemory>
    ensures { IfOk result (λ line. line.items ≡ stop_line link why) }
{
    let place = why.place();
    let kind = why.kind();
    Ok(format!(in alloc; "!{link} {place} {kind}\n")?.into_bytes())
}
