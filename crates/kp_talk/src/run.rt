//! A run of a client: a talk over a source and two sinks.
ghost use Rattle.std.specs.Prelude.{◌≡◌, ◌≢◌, ◌<◌, ◌≤◌, ℕ, List, [], length, take, Option, IfOk, OnOk, OnErr};
ghost use Rattle.std.specs.Io.KnownBytes.{Consumes, IsAtEnd, Keeps};
ghost use Rattle.sib_io.specs.Causes.{HasCause};
ghost use Rattle.ssap_decode.specs.Decoding.{fresh};
ghost use Rattle.kp_talk.specs.Stages.{HasUris};
ghost use Rattle.kp_talk.specs.Saying.{outlets};
ghost use Rattle.kp_talk.specs.Ending.{Outside, outside, Ended};
ghost use Rattle.kp_talk.specs.Turn.{Talking, IsTalking, StartsTalking, ComesTo, TurnsOn, ReadsPiece, HandsOn, PrintsLast};
ghost use Rattle.kp_talk.specs.declared.errand.Errand.{Errand as ErrandOf};
ghost use Rattle.sib_io.specs.declared.reading.TheConstants.{INPUT_LIMIT};
ghost use Rattle.kp_talk.specs.declared.ending.Ending.TheVariants.{WriteFault as SinkFailed};

use crate::hearing::{end_of, hear_all};
use crate::lines::print_finish;
use crate::party::Party;
use crate::{Ending, Errand};
use sib_io::{Failed, INPUT_LIMIT, Sink, Source, read_at_most};
use ssap_decode::Decoder;
use std::alloc::Global;

/// The most bytes that one read takes.
const BUFFER: usize = 16384;

/// Talks with a broker on an errand. The requests go to `sink`, what is printed goes to `out`, and what the broker sends comes
/// from `source`. A line is printed before the request that follows it is written. Both sinks are flushed before each read,
/// which may wait, and at the end.
pub fn talk<S: Source, K: Sink, O: Sink>(
    alloc: Global,
    errand: Errand,
    source: &mut S,
    sink: &mut K,
    out: &mut O,
) -> Ending
    requires { HasUris errand.task }
    ensures ended { Ended errand
        (outside (S.left source.old) (K.given sink.old) (O.given out.old) (S.faults source.old) (K.faults sink.old) (O.faults out.old))
        (outside (S.left source.new) (K.given sink.new) (O.given out.new) (S.faults source.new) (K.faults sink.new) (O.faults out.new)) result }
    ensures handed { result ≢ SinkFailed → (K.handed sink.new ≡ K.given sink.new) × (O.handed out.new ≡ O.given out.new) }
{
    let ending = talk_on(alloc, errand, source, sink, out);
    let last = print_last(alloc, ending, out);
    match hand_on(sink, out) {
        Ok(()) => match last {
            Ok(()) => ending,
            Err(failed) => failed,
        },
        Err(_) => Ending::WriteFault,
    }
}

// Talks up to the last line, which is not printed yet.
fn talk_on<S: Source, K: Sink, O: Sink>(
    alloc: Global,
    errand: Errand,
    source: &mut S,
    sink: &mut K,
    out: &mut O,
) -> Ending
    requires { HasUris errand.task }
    ensures { ComesTo errand
        (outside (S.left source.old) (K.given sink.old) (O.given out.old) (S.faults source.old) (K.faults sink.old) (O.faults out.old))
        (outside (S.left source.new) (K.given sink.new) (O.given out.new) (S.faults source.new) (K.faults sink.new) (O.faults out.new)) result }
{
    match Party::start(alloc, errand, sink) {
        Ok(party) => read_all(alloc, party, source, sink, out),
        Err(ending) => ending,
    }
}

// Reads piece by piece and answers what is read, up to the end of the talk.
fn read_all<S: Source, K: Sink, O: Sink>(
    alloc: Global,
    mut party: Party,
    source: &mut S,
    sink: &mut K,
    out: &mut O,
) -> Ending
    requires { StartsTalking (outside (S.left source.old) (K.given sink.old) (O.given out.old) (S.faults source.old) (K.faults sink.old) (O.faults out.old)) party }
    ensures { (errand : ErrandOf) (old : Outside)
        → Talking errand old (outside (S.left source.old) (K.given sink.old) (O.given out.old) (S.faults source.old) (K.faults sink.old) (O.faults out.old)) [] INPUT_LIMIT party fresh
        → ComesTo errand old (outside (S.left source.new) (K.given sink.new) (O.given out.new) (S.faults source.new) (K.faults sink.new) (O.faults out.new)) result }
{
    let mut decoder = Decoder::new(alloc);
    let mut buffer = [0u8; BUFFER];
    let mut left = INPUT_LIMIT;
    loop {
        match turn(
            alloc,
            &mut party,
            &mut decoder,
            source,
            sink,
            out,
            &mut buffer,
            left,
        ) {
            Ok(count) => left -= count,
            Err(ending) => return ending,
        }
    }
}

// Reads once, at most so many bytes as may still be taken, and answers what was read.
fn turn<S: Source, K: Sink, O: Sink>(
    alloc: Global,
    party: &mut Party,
    decoder: &mut Decoder,
    source: &mut S,
    sink: &mut K,
    out: &mut O,
    buffer: &mut [u8],
    left: u64,
) -> Result<u64, Ending>
    requires left { 0 < left }
    requires room { 0 < length buffer.old }
    requires talking { IsTalking (outside (S.left source.old) (K.given sink.old) (O.given out.old) (S.faults source.old) (K.faults sink.old) (O.faults out.old)) left party.old decoder.old }
    ensures within { IfOk result (λ count. (0 < count) × (count < left)) }
    ensures turned { (errand : ErrandOf) (old : Outside) (read : List ℕ)
        → Talking errand old (outside (S.left source.old) (K.given sink.old) (O.given out.old) (S.faults source.old) (K.faults sink.old) (O.faults out.old)) read left party.old decoder.old
        → TurnsOn errand old (outside (S.left source.new) (K.given sink.new) (O.given out.new) (S.faults source.new) (K.faults sink.new) (O.faults out.new)) read left party.new decoder.new result }
{
    let count = read_piece(source, sink, out, buffer, left)?;
    if count == 0 {
        return Err(end_of(decoder));
    }
    hear_all(alloc, party, decoder, buffer.split_at(count).0, sink, out)?;
    if count as u64 == left {
        return Err(Ending::Spent);
    }
    Ok(count as u64)
}

// Hands on what was written and printed, since the read may wait, and reads at most so many bytes.
fn read_piece<S: Source, K: Sink, O: Sink>(
    source: &mut S,
    sink: &mut K,
    out: &mut O,
    buffer: &mut [u8],
    left: u64,
) -> Result<usize, Ending>
    requires left { 0 < left }
    requires room { 0 < length buffer.old }
    ensures within { IfOk result (λ count. (count ≤ left) × (count ≤ length buffer.new)) }
    ensures handed { OnOk result ((K.handed sink.new ≡ K.given sink.new) × (O.handed out.new ≡ O.given out.new)) }
    ensures reads { ReadsPiece (outside (S.left source.old) (K.given sink.old) (O.given out.old) (S.faults source.old) (K.faults sink.old) (O.faults out.old))
        (outside (S.left source.new) (K.given sink.new) (O.given out.new) (S.faults source.new) (K.faults sink.new) (O.faults out.new)) buffer.new result }
{
    hand_on(sink, out)?;
    match read_at_most(source, buffer, left) {
        Ok(count) => Ok(count),
        Err(_) => Err(Ending::ReadFault),
    }
}

// Hands on what was written and what was printed. Where the first fails, the second is tried all the same.
fn hand_on<K: Sink, O: Sink>(sink: &mut K, out: &mut O) -> Result<(), Failed>
    ensures handed { OnOk result ((K.handed sink.new ≡ K.given sink.new) × (O.handed out.new ≡ O.given out.new)) }
    ensures kept { HandsOn (outlets (K.given sink.old) (O.given out.old) (K.faults sink.old) (O.faults out.old))
        (outlets (K.given sink.new) (O.given out.new) (K.faults sink.new) (O.faults out.new)) result }
{
    let sent = sink.flush();
    out.flush()?;
    sent
}

// Prints the last line, if the ending has one.
fn print_last<O: Sink>(alloc: Global, ending: Ending, out: &mut O) -> Result<(), Ending>
    ensures { (written : Option (List ℕ)) (writes : ℕ) → PrintsLast (outlets written (O.given out.old) writes (O.faults out.old))
        (outlets written (O.given out.new) writes (O.faults out.new)) ending result }
{
    match ending {
        Ending::Finished(finish) => print_finish(alloc, finish, out),
        Ending::ReadFault | Ending::WriteFault | Ending::NoMemory | Ending::Spent => Ok(()),
    }
}
