ghost use Rattle.std.specs.Prelude.{◌≡◌, ◌⊎◌, ℕ, ◌+◌, ◌^◌, ◌<◌, ◌≤◌, ◌++◌, List, [], length, take, IfOk, OnOk};
ghost use Rattle.sib_replay.specs.Doing.{Seen, seen};
ghost use Rattle.sib_replay.specs.Output.{fault_line};
ghost use Rattle.sib_script.specs.Reading.{fresh};
ghost use Rattle.sib_replay.specs.Session.{Stands, WritesLast};
ghost use Rattle.sib_replay.specs.declared.ending.Ending.TheVariants.{Done as AllDone, BadScript as NoScript, NoMemory as OutOfMemory};
ghost use Rattle.sib_script.specs.declared.reader.ScriptFault.TheVariants.{BadScript as FaultAt, NoMemory as NoRoom};

use crate::ending::{Ending, Fault};
use crate::lines::fault;
use crate::session::Session;
use m3_terms::{Steps, Text};
use sib_io::Sink;
use sib_script::{Entry, ScriptFault, ScriptReader};
use std::alloc::Global;
use std::sync::ledger::Ledger;
use std::thread::Threads;

/// A replay: what reads the script, and the session that answers it.
#[derive(Drop)]
pub struct Replay {
    reader: ScriptReader,
    session: Session,
}

impl Replay {
    ghost use Rattle.sib_replay.specs.Session.{Replays, Feeds, FeedsAll, Settles, Holds, Finishes, IsOngoing, IsHeld};

    /// A replay that has read nothing, in a space of this name.
    pub fn new(alloc: Global, name: Text) -> Replay
        ensures reader { result.reader ≡ fresh }
        ensures session { Stands name result.session [] }
    {
        Replay {
            reader: ScriptReader::new(alloc),
            session: Session::new(alloc, name),
        }
    }

    /// Reads and answers bytes.
    pub fn feed<R: Threads + Sync, K: Sink, L: Ledger>(
        &mut self,
        alloc: Global,
        rt: &R,
        sink: &mut K,
        bytes: &[u8],
        steps: &mut Steps<L>,
    ) -> Result<(), Ending>
        requires fits { self.old.reader.taken + length bytes.now < 2 ^ 60 }
        requires ongoing { IsOngoing self.old.reader self.old.session }
        ensures { (name : List ℕ) (old : Seen) (read : List ℕ)
            → Replays name old (seen (K.given sink.old) (K.faults sink.old) steps.old) read self.old.reader self.old.session
            → FeedsAll name old (seen (K.given sink.new) (K.faults sink.new) steps.new) (read ++ bytes.now) self.new.reader self.new.session result }
    {
        let mut rest = bytes;
        while !rest.is_empty() {
            let count = self.feed_some(alloc, rt, sink, rest, steps)?;
            rest = rest.split_at(count).1;
        }
        Ok(())
    }

    /// Says how a replay ends after which no byte follows, and writes the last line behind a script, and the place of the
    /// fault behind what is none.
    pub fn finish<K: Sink>(&mut self, alloc: Global, sink: &mut K) -> Ending
        requires ongoing { IsOngoing self.old.reader self.old.session }
        ensures { (name : List ℕ) (old : Seen) (steps : ℕ) (read : List ℕ)
            → Replays name old (seen (K.given sink.old) (K.faults sink.old) steps) read self.old.reader self.old.session
            → Finishes name old (K.given sink.new) (K.faults sink.new) read result }
    {
        if let Err(fault) = self.reader.end() {
            return refuse(alloc, sink, fault);
        }
        match self.session.last_line(alloc) {
            Ok(line) => write_last(sink, &line, Ending::Done),
            Err(_) => Ending::NoMemory,
        }
    }

    // Reads to the end of an entry or of the bytes, answers what it read, and says how many bytes that took.
    fn feed_some<R: Threads + Sync, K: Sink, L: Ledger>(
        &mut self,
        alloc: Global,
        rt: &R,
        sink: &mut K,
        bytes: &[u8],
        steps: &mut Steps<L>,
    ) -> Result<usize, Ending>
        requires some { 0 < length bytes.now }
        requires fits { self.old.reader.taken + length bytes.now < 2 ^ 60 }
        requires ongoing { IsOngoing self.old.reader self.old.session }
        ensures within { IfOk result (λ count. (0 < count) × (count ≤ length bytes.now)) }
        ensures taken { IfOk result (λ count. self.new.reader.taken ≡ self.old.reader.taken + count) }
        ensures ongoing { OnOk result (IsOngoing self.new.reader self.new.session) }
        ensures fed { (name : List ℕ) (old : Seen) (read : List ℕ)
            → Replays name old (seen (K.given sink.old) (K.faults sink.old) steps.old) read self.old.reader self.old.session
            → Feeds name old (seen (K.given sink.new) (K.faults sink.new) steps.new) read bytes.now self.new.reader self.new.session result }
    {
        let count = match self.reader.feed(alloc, bytes) {
            Ok(count) => count,
            Err(fault) => return Err(refuse(alloc, sink, fault)),
        };
        let Some(entry) = self.reader.next() else {
            return Ok(count);
        };
        match self.answer(alloc, rt, sink, entry, steps) {
            Ok(()) => Ok(count),
            Err(fault) => Err(fault.ending()),
        }
    }

    // Answers one entry.
    fn answer<R: Threads + Sync, K: Sink, L: Ledger>(
        &mut self,
        alloc: Global,
        rt: &R,
        sink: &mut K,
        entry: Entry,
        steps: &mut Steps<L>,
    ) -> Result<(), Fault>
        requires held { IsHeld entry self.old.reader self.old.session }
        ensures reader { self.new.reader ≡ self.old.reader }
        ensures settled { (name : List ℕ) (old : Seen) (read : List ℕ)
            → Holds name old (seen (K.given sink.old) (K.faults sink.old) steps.old) read entry self.old.reader self.old.session
            → Settles name old (seen (K.given sink.new) (K.faults sink.new) steps.new) read self.new.reader self.new.session result }
    {
        self.session.answer(alloc, rt, &entry, sink, steps)
    }
}

// Writes the line of an input that is no script, and says how the replay ends.
fn refuse<K: Sink>(alloc: Global, sink: &mut K, refused: ScriptFault) -> Ending
    ensures place { (place : ℕ) → refused ≡ FaultAt place
        → WritesLast (K.given sink.old) (K.given sink.new) (K.faults sink.old) (K.faults sink.new) (fault_line place) NoScript result }
    ensures memory { refused ≡ NoRoom → (result ≡ OutOfMemory) × (K.given sink.new ≡ K.given sink.old) × (K.faults sink.new ≡ K.faults sink.old) }
{
    match refused {
        ScriptFault::BadScript { place } => match fault(alloc, place) {
            Ok(line) => write_last(sink, &line, Ending::BadScript),
            Err(_) => Ending::NoMemory,
        },
        ScriptFault::NoMemory => Ending::NoMemory,
    }
}

// Writes the line with which a replay ends.
fn write_last<K: Sink>(sink: &mut K, line: &[u8], ending: Ending) -> Ending
    requires last { (ending ≡ AllDone) ⊎ (ending ≡ NoScript) }
    ensures { WritesLast (K.given sink.old) (K.given sink.new) (K.faults sink.old) (K.faults sink.new) line.now ending result }
{
    match sink.write_all(line) {
        Ok(()) => ending,
        Err(_) => Ending::WriteFault,
    }
}
