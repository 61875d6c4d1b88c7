ghost use Rattle.std.specs.Prelude.{ℕ, ◌≡◌, ◌+◌, ◌^◌, ◌<◌, ◌≤◌, List, length, IfOk, OnOk, IfSome, true};
ghost use Rattle.link_table.specs.Links.{is_open, state_of};
ghost use Rattle.sib_replay.specs.Doing.{Seen, seen, Does};
ghost use Rattle.sib_replay.specs.Output.{Event, answers_after, rows_after, space_after};
ghost use Rattle.sib_replay.specs.Session.{reason_from, IsBehind, IsDrained, IsFollowing, Follows, Hearing, HearsOn, HearsAll, TakesFramed, Refuses, EndsAs};

use crate::acting::{Reason, act};
use crate::ending::Fault;
use crate::why::Why;
use m3_terms::{NoMemory, Steps};
use session_core::{Call, Core, LinkState};
use sib_io::Sink;
use ssap_decode::{Decoder, Framed, Stop};
use ssap_shape::{Arrived, shape};
use std::alloc::Global;
use std::sync::ledger::Ledger;
use std::thread::Threads;

/// Takes the bytes that come on an open link, up to where it stops, and answers them.
pub fn hear_all<R: Threads + Sync, K: Sink, L: Ledger>(
    alloc: Global,
    rt: &R,
    link: u32,
    core: &mut Core,
    decoder: &mut Decoder,
    bytes: &[u8],
    sink: &mut K,
    steps: &mut Steps<L>,
) -> Result<(), Fault>
    requires fits { decoder.old.taken + length bytes.now < 2 ^ 63 }
    requires following { IsFollowing decoder.old }
    requires behind { IsBehind core.old.space }
    requires drained { IsDrained core.old.space }
    requires runs { is_open (state_of core.old.space.links link) ≡ true }
    ensures { (name : List ℕ) (before : List Event) (heard : List ℕ) (came : ℕ) → core.old.space ≡ space_after name before → Follows decoder.old heard came
        → HearsAll name before link came heard bytes.now (seen (K.given sink.old) (K.faults sink.old) steps.old) (seen (K.given sink.new) (K.faults sink.new) steps.new)
        core.new.space decoder.new result }
{
    let mut rest = bytes;
    while !rest.is_empty() {
        match hear_some(alloc, rt, link, core, decoder, rest, sink, steps)? {
            Some(count) => rest = rest.split_at(count).1,
            None => return Ok(()),
        }
    }
    Ok(())
}

// Takes bytes that come on a link up to the end of a message or of the bytes, and answers the message. Says how many bytes
// that took, or `None` where the link isn't open any more.
fn hear_some<R: Threads + Sync, K: Sink, L: Ledger>(
    alloc: Global,
    rt: &R,
    link: u32,
    core: &mut Core,
    decoder: &mut Decoder,
    bytes: &[u8],
    sink: &mut K,
    steps: &mut Steps<L>,
) -> Result<Option<usize>, Fault>
    requires some { 0 < length bytes.now }
    requires fits { decoder.old.taken + length bytes.now < 2 ^ 63 }
    requires following { IsFollowing decoder.old }
    requires drained { IsDrained core.old.space }
    ensures within { IfOk result (λ took. IfSome took (λ count. (0 < count) × (count ≤ length bytes.now))) }
    ensures drained { OnOk result (IsDrained core.new.space) }
    ensures heard { (name : List ℕ) (before : List Event) (heard : List ℕ) (came : ℕ) (events : List Event) (old : Seen) → Hearing name before link came heard events core.old.space decoder.old
        → Does old (seen (K.given sink.old) (K.faults sink.old) steps.old) (answers_after name before events) (rows_after name before events)
        → HearsOn name before link came heard events bytes.now old (seen (K.given sink.new) (K.faults sink.new) steps.new) core.new.space decoder.new result }
{
    let count = match decoder.feed(alloc, bytes) {
        Ok(count) => count,
        Err(stop) => {
            refuse(alloc, rt, link, core, stop, sink, steps)?;
            return Ok(None);
        }
    };
    let Some(framed) = decoder.next() else {
        return Ok(Some(count));
    };
    if take_message(alloc, rt, link, core, framed, sink, steps)? {
        Ok(Some(count))
    } else {
        Ok(None)
    }
}

// Takes a message, and says whether its link is open then.
fn take_message<R: Threads + Sync, K: Sink, L: Ledger>(
    alloc: Global,
    rt: &R,
    link: u32,
    core: &mut Core,
    framed: Framed,
    sink: &mut K,
    steps: &mut Steps<L>,
) -> Result<bool, Fault>
    requires drained { IsDrained core.old.space }
    ensures drained { OnOk result (IsDrained core.new.space) }
    ensures taken { TakesFramed link core.old.space framed core.new.space (seen (K.given sink.old) (K.faults sink.old) steps.old) (seen (K.given sink.new) (K.faults sink.new) steps.new) result }
{
    let arrived = shape(alloc, &framed.envelope)?;
    let reason = reason_of(link, framed.start, &arrived);
    act(
        alloc,
        rt,
        core,
        Call::Deliver(link, arrived),
        reason,
        sink,
        steps,
    )?;
    Ok(runs(core, link))
}

// The reason why a link stops for what came on it: a message that begins here is no request.
fn reason_of(link: u32, start: u64, arrived: &Arrived) -> Option<Reason>
    ensures { result ≡ reason_from link start arrived.now }
{
    match arrived {
        Arrived::NotRequest => {
            let why = Why::Request { start };
            Some(Reason { link, why })
        }
        Arrived::Request(_) => None,
        Arrived::Wrong {
            heads: _,
            status: _,
        } => None,
    }
}

// Ends a link whose decoder stopped.
fn refuse<R: Threads + Sync, K: Sink, L: Ledger>(
    alloc: Global,
    rt: &R,
    link: u32,
    core: &mut Core,
    stop: Stop,
    sink: &mut K,
    steps: &mut Steps<L>,
) -> Result<(), Fault>
    requires drained { IsDrained core.old.space }
    ensures drained { OnOk result (IsDrained core.new.space) }
    ensures refused { Refuses link core.old.space stop core.new.space (seen (K.given sink.old) (K.faults sink.old) steps.old) (seen (K.given sink.new) (K.faults sink.new) steps.new) result }
{
    let reason = Reason {
        link,
        why: Why::of(stop)?,
    };
    act(alloc, rt, core, Call::End(link), Some(reason), sink, steps)?;
    Ok(())
}

/// Whether a link is open.
pub fn runs(core: &Core, link: u32) -> bool
    ensures { result ≡ is_open (state_of core.now.space.links link) }
{
    matches!(core.link_state(link), LinkState::Open)
}

/// The reason why a link stops whose input ends, if a message is cut.
pub fn end_of(link: u32, mut decoder: Decoder) -> Result<Option<Reason>, NoMemory>
    ensures { (heard : List ℕ) (came : ℕ) → Follows decoder heard came → IfOk result (EndsAs link heard) }
{
    match decoder.end() {
        Ok(()) => Ok(None),
        Err(stop) => {
            let why = Why::of(stop)?;
            Ok(Some(Reason { link, why }))
        }
    }
}
