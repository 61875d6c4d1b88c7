ghost use Rattle.std.specs.Prelude.{◌≡◌, ◌+◌, ◌<◌, ◌≤◌, length, take, flat_map, replicate, Some, IfOk, OnOk};
ghost use Rattle.link_table.specs.Links.{pending_of};
ghost use Rattle.session_core.specs.Runs.{run_from};
ghost use Rattle.session_core.specs.Steps.{step};
ghost use Rattle.session_core.specs.declared.call.Call.TheVariants.{Take as Taking};
ghost use Rattle.session_core.specs.Reads.{cost, costs};
ghost use Rattle.sib_replay.specs.Doing.{seen, Acts};
ghost use Rattle.sib_replay.specs.Output.{takes, calls_with, reply_lines, link_lines, stop_at, stop_lines, message_lines};
ghost use Rattle.sib_replay.specs.Session.{AreRising, reason_in, opened_in};

use crate::ending::Fault;
use crate::lines::{write_full, write_message, write_stop};
use crate::why::Why;
use m3_terms::{NoMemory, Steps};
use session_core::{Call, Core, LinkState, Reply, Ring};
use sib_io::Sink;
use std::alloc::Global;
use std::sync::ledger::Ledger;
use std::thread::Threads;

/// The most calls that a space counts. No run comes near it: at a call each nanosecond it takes a century.
const CALL_LIMIT: u64 = 1 << 62;

/// A link that stops, and why.
#[derive(Clone, Copy, Debug, PartialEq, Eq)]
pub struct Reason {
    pub link: u32,
    pub why: Why,
}

/// Does a call, takes the messages that wait on the links of its reply, and writes them, with the line of each link that
/// stops, or the line where no link may open. The reason is why a link stops that isn't overrun. Gives the number of a link
/// that opened.
pub fn act<R: Threads + Sync, K: Sink, L: Ledger>(
    alloc: Global,
    rt: &R,
    core: &mut Core,
    call: Call,
    reason: Option<Reason>,
    sink: &mut K,
    steps: &mut Steps<L>,
) -> Result<Option<u32>, Fault>
    ensures opened { IfOk result (λ link. link ≡ opened_in (step core.old.space call).reply) }
    ensures space { OnOk result (core.new.space ≡ run_from core.old.space (calls_with core.old.space (Some call))) }
    ensures acts { Acts (seen (K.given sink.old) (K.faults sink.old) steps.old) (seen (K.given sink.new) (K.faults sink.new) steps.new) result
        (reply_lines (reason_in reason) (step core.old.space call).space (step core.old.space call).reply)
        (costs core.old.space (calls_with core.old.space (Some call))) }
{
    match do_call(alloc, rt, core, call, steps)? {
        Reply::Done { ring } => {
            write_ring(alloc, rt, core, &ring, reason, sink, steps)?;
            Ok(None)
        }
        Reply::TooManyLinks { count } => {
            write_full(alloc, sink, count)?;
            Ok(None)
        }
        Reply::Opened(link) => Ok(Some(link)),
        Reply::Closed | Reply::NoLink | Reply::Message(_) | Reply::Empty | Reply::Over => Ok(None),
    }
}

// Does a call, if the space can count one more.
fn do_call<R: Threads + Sync, L: Ledger>(
    alloc: Global,
    rt: &R,
    core: &mut Core,
    call: Call,
    steps: &mut Steps<L>,
) -> Result<Reply, NoMemory>
    ensures reply { IfOk result (λ reply. reply ≡ (step core.old.space call).reply) }
    ensures space { OnOk result (core.new.space ≡ (step core.old.space call).space) }
    ensures cost { steps.new ≤ steps.old + cost core.old.space call }
{
    if core.count() >= CALL_LIMIT {
        return Err(NoMemory);
    }
    core.step(alloc, rt, call, steps)
}

// Takes what waits on each of these links, and writes it, and the line of one that stops.
fn write_ring<R: Threads + Sync, K: Sink, L: Ledger>(
    alloc: Global,
    rt: &R,
    core: &mut Core,
    ring: &Ring,
    reason: Option<Reason>,
    sink: &mut K,
    steps: &mut Steps<L>,
) -> Result<(), Fault>
    requires rising { AreRising 1 ring.now }
    ensures space { OnOk result (core.new.space ≡ run_from core.old.space (takes core.old.space ring.now)) }
    ensures acts { Acts (seen (K.given sink.old) (K.faults sink.old) steps.old) (seen (K.given sink.new) (K.faults sink.new) steps.new) result
        (flat_map (link_lines core.old.space (reason_in reason)) ring.now) (costs core.old.space (takes core.old.space ring.now)) }
{
    for at in 0..ring.len() {
        if let Some(link) = ring.get(at) {
            write_link(alloc, rt, core, *link, reason, sink, steps)?;
        }
    }
    Ok(())
}

// Takes what waits on a link, and writes it, and the line of one that stops.
fn write_link<R: Threads + Sync, K: Sink, L: Ledger>(
    alloc: Global,
    rt: &R,
    core: &mut Core,
    link: u32,
    reason: Option<Reason>,
    sink: &mut K,
    steps: &mut Steps<L>,
) -> Result<(), Fault>
    ensures space { OnOk result (core.new.space ≡ run_from core.old.space (replicate (length (pending_of core.old.space.links link)) (Taking link))) }
    ensures acts { Acts (seen (K.given sink.old) (K.faults sink.old) steps.old) (seen (K.given sink.new) (K.faults sink.new) steps.new) result
        (link_lines core.old.space (reason_in reason) link) (costs core.old.space (replicate (length (pending_of core.old.space.links link)) (Taking link))) }
{
    let stop = why_stopped(core.link_state(link), link, reason);
    write_messages(alloc, rt, core, link, sink, steps)?;
    write_stop(alloc, sink, link, stop)
}

// Why a link of this state stops, if it does.
fn why_stopped(state: LinkState, link: u32, reason: Option<Reason>) -> Option<Why>
    ensures { result ≡ stop_at state (reason_in reason link) }
{
    if let LinkState::Overrun = state {
        return Some(Why::Overrun);
    }
    match reason {
        Some(reason) if reason.link == link => Some(reason.why),
        _ => None,
    }
}

// Takes what waits on a link, and writes it.
fn write_messages<R: Threads + Sync, K: Sink, L: Ledger>(
    alloc: Global,
    rt: &R,
    core: &mut Core,
    link: u32,
    sink: &mut K,
    steps: &mut Steps<L>,
) -> Result<(), Fault>
    ensures space { OnOk result (core.new.space ≡ run_from core.old.space (replicate (length (pending_of core.old.space.links link)) (Taking link))) }
    ensures acts { Acts (seen (K.given sink.old) (K.faults sink.old) steps.old) (seen (K.given sink.new) (K.faults sink.new) steps.new) result
        (flat_map (message_lines link) (pending_of core.old.space.links link)) (costs core.old.space (replicate (length (pending_of core.old.space.links link)) (Taking link))) }
{
    while core.waiting(link) > 0 {
        write_first(alloc, rt, core, link, sink, steps)?;
    }
    Ok(())
}

// Takes the message that waits longest on a link, and writes it.
fn write_first<R: Threads + Sync, K: Sink, L: Ledger>(
    alloc: Global,
    rt: &R,
    core: &mut Core,
    link: u32,
    sink: &mut K,
    steps: &mut Steps<L>,
) -> Result<(), Fault>
    requires waits { 0 < length (pending_of core.old.space.links link) }
    ensures space { OnOk result (core.new.space ≡ (step core.old.space (Taking link)).space) }
    ensures acts { Acts (seen (K.given sink.old) (K.faults sink.old) steps.old) (seen (K.given sink.new) (K.faults sink.new) steps.new) result
        (flat_map (message_lines link) (take 1 (pending_of core.old.space.links link))) (cost core.old.space (Taking link)) }
{
    if let Reply::Message(taken) = do_call(alloc, rt, core, Call::Take(link), steps)? {
        write_message(alloc, sink, link, &taken)?;
    }
    Ok(())
}
