//! The bytes of a link, as a party to a talk hears them.
ghost use Rattle.std.specs.Prelude.{◌≡◌, ℕ, ◌+◌, ◌<◌, ◌≤◌, ◌^◌, List, ◌++◌, length, IfOk};
ghost use Rattle.ssap_hearing.specs.Hearing.{Follows};
ghost use Rattle.kp_talk.specs.Saying.{Outlets, outlets};
ghost use Rattle.kp_talk.specs.Listening.{Listens, Hears, HearsSome, IsListening, EndsBehind, ending_at};
ghost use Rattle.kp_talk.specs.declared.errand.Errand.{Errand};

use crate::party::Party;
use crate::{Break, Ending, Finish};
use sib_io::Sink;
use ssap_decode::{Decoder, Stop};
use ssap_shape::client_shape;
use std::alloc::Global;

/// Takes bytes of the link, and answers their messages, up to where the talk is finished.
pub(crate) fn hear_all<K: Sink, O: Sink>(
    alloc: Global,
    party: &mut Party,
    decoder: &mut Decoder,
    bytes: &[u8],
    sink: &mut K,
    out: &mut O,
) -> Result<(), Ending>
    requires fits { decoder.old.taken + length bytes.now < 2 ^ 63 }
    requires listening { IsListening party.old decoder.old }
    ensures { (errand : Errand) (old : Outlets) (heard : List ℕ) → Listens errand old (outlets (K.given sink.old) (O.given out.old) (K.faults sink.old) (O.faults out.old)) heard party.old decoder.old
        → Hears errand old (outlets (K.given sink.new) (O.given out.new) (K.faults sink.new) (O.faults out.new)) (heard ++ bytes.now) (heard ++ bytes.now) result party.new decoder.new }
{
    let mut rest = bytes;
    while !rest.is_empty() {
        let count = hear_some(alloc, party, decoder, rest, sink, out)?;
        rest = rest.split_at(count).1;
    }
    Ok(())
}

// Takes bytes of the link up to the end of a message or of the bytes, and answers the message. Says how many it took.
fn hear_some<K: Sink, O: Sink>(
    alloc: Global,
    party: &mut Party,
    decoder: &mut Decoder,
    bytes: &[u8],
    sink: &mut K,
    out: &mut O,
) -> Result<usize, Ending>
    requires some { 0 < length bytes.now }
    requires fits { decoder.old.taken + length bytes.now < 2 ^ 63 }
    requires listening { IsListening party.old decoder.old }
    ensures within { IfOk result (λ count. (0 < count) × (count ≤ length bytes.now)) }
    ensures hears { (errand : Errand) (old : Outlets) (heard : List ℕ) → Listens errand old (outlets (K.given sink.old) (O.given out.old) (K.faults sink.old) (O.faults out.old)) heard party.old decoder.old
        → HearsSome errand old (outlets (K.given sink.new) (O.given out.new) (K.faults sink.new) (O.faults out.new)) heard bytes.now result party.new decoder.new }
{
    let count = match decoder.feed(alloc, bytes) {
        Ok(count) => count,
        Err(stop) => return Err(ending_of(stop)),
    };
    let Some(framed) = decoder.next() else {
        return Ok(count);
    };
    let incoming = client_shape(alloc, &framed.envelope)?;
    party.hear(alloc, incoming, sink, out)?;
    Ok(count)
}

/// How a talk ends whose input ends.
pub(crate) fn end_of(decoder: &mut Decoder) -> Ending
    ensures { (heard : List ℕ) (came : ℕ) → Follows decoder.old heard came → EndsBehind heard result }
{
    match decoder.end() {
        Ok(()) => Ending::Finished(Finish::Over),
        Err(stop) => ending_of(stop),
    }
}

// How a talk ends whose decoder stopped.
fn ending_of(stop: Stop) -> Ending
    ensures { result ≡ ending_at stop }
{
    let (place, kind) = match stop {
        Stop::Syntax { place } => (place, Break::Syntax),
        Stop::TooLong { start } => (start, Break::Long),
        Stop::Cut { start } => (start, Break::Cut),
        Stop::NoMemory => return Ending::NoMemory,
    };
    Ending::Finished(Finish::BrokenStream { place, kind })
}
