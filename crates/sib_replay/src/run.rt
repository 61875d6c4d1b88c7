//! A replay of a script, over a source and a sink.
ghost use Rattle.std.specs.Prelude.{◌≡◌, ◌⊎◌, ℕ, ◌+◌, ◌^◌, ◌<◌, ◌≤◌, List, length, IfOk, OnOk};
ghost use Rattle.sib_replay.specs.Session.{IsOngoing};
ghost use Rattle.sib_replay.specs.Turn.{Turns, TurnsOn, ReadsPiece};
ghost use Rattle.sib_replay.specs.declared.ending.Ending.TheVariants.{WriteFault as SinkFailed};
ghost use Rattle.sib_replay.specs.Ending.{Outside, outside, Ended};

use crate::ending::Ending;
use crate::replay::Replay;
use m3_terms::{Steps, Text};
use sib_io::{INPUT_LIMIT, Sink, Source, read_at_most};
use std::alloc::Global;
use std::sync::ledger::Ledger;
use std::thread::Threads;

/// The most bytes that one read takes.
const BUFFER: usize = 16384;

/// Replays the script that a source has, in a space of this name, gives the answers to a sink, and hands on what was written.
///
/// The script is read piece by piece. Beside the space, the memory holds one entry of it, the message at hand of each open
/// link, and the message that is being written; each message goes to the sink as it is taken from the space. Before each read,
/// which may wait, the sink is flushed, and again at the end, so that a sink that gathers output withholds no answer.
///
/// All links of a script speak to one space, and up to 256 of them are open at a time. The bytes on a link are a stream of
/// messages, in any spelling and cut anywhere. A link that stops skips the rest of its delivery and is closed from then on.
/// Each call is followed by what it sends: the messages that wait on each link, by rising number, and then why the link
/// stops, if it does. `steps` counts the rows of the graph that calls read.
///
/// A call may send on links other than its own: an update tells each subscription whose answer it changes, on the link of
/// that subscription. The law `subscriptions_are_followed` says of the events of any script that what a living subscription was
/// told leads from its first answer to its answer over the graph, and that these changes are written for its link, in their
/// order.
///
/// | Line | What it answers |
/// |---|---|
/// | `<L N`, and N bytes on lines of their own | a message that is sent on link L: the confirm of a request that came on it, or an indication of a subscription on it |
/// | `!L P request` | the message that begins at byte P of link L, which is no request: the link stops |
/// | `!L P syntax` | the byte P of link L, with which no message goes on: the link stops |
/// | `!L P long` | the message that begins at byte P of link L and has more than 4,194,304 bytes: the link stops |
/// | `!L P cut` | the end of link L inside the message that begins at its byte P |
/// | `!L 0 overrun` | a link L on which more would wait than 8,388,608 bytes: the link stops |
/// | `!L 0 closed` | a delivery on link L, or its end, where the link isn't open |
/// | `!0 C full` | a link that would open, where C count, which are open or have messages that wait, and no more may open |
/// | `= U T S` | the end of the script: U updates were accepted, the graph has T triples, and S subscriptions live |
/// | `? P` | an input that is no script: P is the length of its longest prefix that begins one |
pub fn replay_script<R: Threads + Sync, S: Source, K: Sink, L: Ledger>(
    alloc: Global,
    rt: &R,
    name: Text,
    source: &mut S,
    sink: &mut K,
    steps: &mut Steps<L>,
) -> Ending
    ensures ended { Ended name (outside (S.left source.old) (K.given sink.old) (S.faults source.old) (K.faults sink.old) steps.old)
        (outside (S.left source.new) (K.given sink.new) (S.faults source.new) (K.faults sink.new) steps.new) result }
    ensures handed { (result ≡ SinkFailed) ⊎ (K.handed sink.new ≡ K.given sink.new) }
{
    let ending = read_all(alloc, rt, name, source, sink, steps);
    match sink.flush() {
        Ok(()) => ending,
        Err(_) => Ending::WriteFault,
    }
}

// Reads and answers all that the source has.
fn read_all<R: Threads + Sync, S: Source, K: Sink, L: Ledger>(
    alloc: Global,
    rt: &R,
    name: Text,
    source: &mut S,
    sink: &mut K,
    steps: &mut Steps<L>,
) -> Ending
    ensures { Ended name (outside (S.left source.old) (K.given sink.old) (S.faults source.old) (K.faults sink.old) steps.old)
        (outside (S.left source.new) (K.given sink.new) (S.faults source.new) (K.faults sink.new) steps.new) result }
{
    let mut replay = Replay::new(alloc, name);
    let mut buffer = [0u8; BUFFER];
    let mut left = INPUT_LIMIT;
    loop {
        match turn(
            alloc,
            rt,
            &mut replay,
            source,
            sink,
            &mut buffer,
            left,
            steps,
        ) {
            Ok(count) => left -= count,
            Err(ending) => return ending,
        }
    }
}

// Reads once, at most so many bytes as may still be taken, and answers what was read.
fn turn<R: Threads + Sync, S: Source, K: Sink, L: Ledger>(
    alloc: Global,
    rt: &R,
    replay: &mut Replay,
    source: &mut S,
    sink: &mut K,
    buffer: &mut [u8],
    left: u64,
    steps: &mut Steps<L>,
) -> Result<u64, Ending>
    requires left { 0 < left }
    requires room { 0 < length buffer.old }
    requires fits { replay.old.reader.taken + left < 2 ^ 60 }
    requires ongoing { IsOngoing replay.old.reader replay.old.session }
    ensures within { IfOk result (λ count. (0 < count) × (count < left)) }
    ensures turned { (name : List ℕ) (old : Outside) (read : List ℕ)
        → Turns name old (outside (S.left source.old) (K.given sink.old) (S.faults source.old) (K.faults sink.old) steps.old) read left replay.old
        → TurnsOn name old (outside (S.left source.new) (K.given sink.new) (S.faults source.new) (K.faults sink.new) steps.new) read left replay.new result }
{
    let count = read_piece(source, sink, buffer, left)?;
    if count == 0 {
        return Err(replay.finish(alloc, sink));
    }
    if count as u64 == left {
        return Err(Ending::Spent);
    }
    replay.feed(alloc, rt, sink, buffer.split_at(count).0, steps)?;
    Ok(count as u64)
}

// Hands on what was written, since the read may wait, and reads at most so many bytes.
fn read_piece<S: Source, K: Sink>(
    source: &mut S,
    sink: &mut K,
    buffer: &mut [u8],
    left: u64,
) -> Result<usize, Ending>
    requires left { 0 < left }
    requires room { 0 < length buffer.old }
    ensures within { IfOk result (λ count. (count ≤ left) × (count ≤ length buffer.new)) }
    ensures handed { OnOk result (K.handed sink.new ≡ K.given sink.new) }
    ensures reads { ReadsPiece (outside (S.left source.old) (K.given sink.old) (S.faults source.old) (K.faults sink.old) 0)
        (outside (S.left source.new) (K.given sink.new) (S.faults source.new) (K.faults sink.new) 0) buffer.new result }
{
    match sink.flush() {
        Ok(()) => match read_at_most(source, buffer, left) {
            Ok(count) => Ok(count),
            Err(_) => Err(Ending::ReadFault),
        },
        Err(_) => Err(Ending::WriteFault),
    }
}
