ghost use Rattle.std.specs.Prelude.{◌≡◌, ◌+◌, ◌^◌, ◌<◌, ◌≤◌, ℕ, List, [], length, IfOk, IfErr, None, true, false};
ghost use Rattle.sib_script.specs.Reading.{Reading, fresh, Feeds, Refuses, IsMemoryWanted, Ends};
ghost use Rattle.sib_script.specs.Standing.{Stands, FeedStands, NextStands, EndStands};
ghost use Rattle.sib_script.specs.declared.reader.ScriptFault.TheVariants.{BadScript, NoMemory};

use crate::Entry;
use crate::step::{Step, advance, is_end, whole_entry};
use std::alloc::{AllocError, AllocFailed, Global};
use std::marker::Model;
use thiserror::Error;

/// Why a script is refused.
#[derive(Debug, Drop, Error)]
pub enum ScriptFault {
    /// No script goes on with the byte at this offset, or the input ends there inside an entry. The offset is counted from
    /// the first byte ever taken, and the bytes before it are the longest prefix that begins some script.
    #[error("no script goes on with byte {place}")]
    BadScript { place: u64 },
    /// The system gave no memory.
    #[error("out of memory")]
    NoMemory,
}

impl From<AllocError> for ScriptFault {
    ghost from_gives = { λ _ fault. fault ≡ NoMemory };

    fn from(_refused: AllocError) -> ScriptFault {
        ScriptFault::NoMemory
    }
}

impl<T: Drop> From<AllocFailed<T>> for ScriptFault {
    ghost from_gives = { λ _ fault. fault ≡ NoMemory };

    fn from(_refused: AllocFailed<T>) -> ScriptFault {
        ScriptFault::NoMemory
    }
}

/// Reads a script in any pieces, one entry at a time.
#[derive(Drop)]
pub struct ScriptReader {
    step: Step,
    piece: Vec<u8>,
    taken: u64,
    stopped: bool,
    waiting: Option<Entry>,
}

impl Model for ScriptReader {
    ghost use Rattle.sib_script.specs.Reading.{Reading};
    ghost use Rattle.sib_script.specs.Steps.{unread_of, IsStep};

    ghost Value = { Reading };

    ghost view = { λ r. record { unread = unread_of r.step r.piece.items; waiting = r.waiting; taken = r.taken; stopped = r.stopped } };

    ghost invariant = { λ r. IsStep r.step r.piece.items };
}

impl ScriptReader {
    /// A reader that has taken nothing. It takes no memory.
    pub fn new(alloc: Global) -> ScriptReader
        ensures fresh { result ≡ fresh }
        ensures stands { Stands result [] 0 }
    {
        ScriptReader {
            step: Step::Start,
            piece: Vec::new(alloc),
            taken: 0,
            stopped: false,
            waiting: None,
        }
    }

    /// Takes bytes up to the end of the piece, the end of an entry or the offset of a fault, and answers how many.
    ///
    /// While an entry waits it takes none. A fault is answered when it stands at the next byte, and then for good. Out of
    /// memory is answered with no byte taken, and leaves the reader as it was.
    pub fn feed(&mut self, alloc: Global, bytes: &[u8]) -> Result<usize, ScriptFault>
        requires { self.old.taken + length bytes.now < 2 ^ 63 }
        ensures ok { IfOk result (λ count. Feeds self.old bytes.now count self.new) }
        ensures refused { IfErr result (Refuses self.old bytes.now self.new) }
        ensures memory { IfErr result (λ fault. fault ≡ NoMemory → IsMemoryWanted self.old bytes.now) }
        ensures stands { FeedStands self.old bytes.now result self.new }
    {
        self.take(alloc, bytes)
    }

    /// Takes bytes, as `feed` does.
    fn take(&mut self, alloc: Global, bytes: &[u8]) -> Result<usize, ScriptFault>
        requires { self.old.taken + length bytes.now < 2 ^ 63 }
        ensures ok { IfOk result (λ count. Feeds self.old bytes.now count self.new) }
        ensures refused { IfErr result (Refuses self.old bytes.now self.new) }
        ensures memory { IfErr result (λ fault. fault ≡ NoMemory → IsMemoryWanted self.old bytes.now) }
    {
        if self.waiting.is_some() {
            return Ok(0);
        }
        if self.stopped {
            return Err(self.stop());
        }
        self.read(alloc, bytes)
    }

    /// Takes bytes where no entry waits and no fault was met.
    fn read(&mut self, alloc: Global, bytes: &[u8]) -> Result<usize, ScriptFault>
        requires room { self.old.taken + length bytes.now < 2 ^ 63 }
        requires idle { self.old.waiting ≡ None }
        requires sound { self.old.stopped ≡ false }
        ensures ok { IfOk result (λ count. Feeds self.old bytes.now count self.new) }
        ensures refused { IfErr result (Refuses self.old bytes.now self.new) }
        ensures memory { IfErr result (λ fault. fault ≡ NoMemory → IsMemoryWanted self.old bytes.now) }
    {
        let (step, count) = advance(self.step, &mut self.piece, bytes)?;
        if is_end(step, &bytes[count..]) {
            self.waiting = Some(whole_entry(alloc, step, &mut self.piece));
            self.step = Step::Start;
            self.taken += count as u64 + 1;
            return Ok(count + 1);
        }
        self.step = step;
        self.taken += count as u64;
        if count == 0 && !bytes.is_empty() {
            return Err(self.stop());
        }
        Ok(count)
    }

    /// Stops for good, and answers the fault.
    fn stop(&mut self) -> ScriptFault
        ensures fault { result ≡ BadScript self.old.taken }
        ensures stopped { self.new ≡ record self.old { stopped = true } }
    {
        self.stopped = true;
        ScriptFault::BadScript { place: self.taken }
    }

    /// The entry that waits, or `None` exactly where none does.
    pub fn next(&mut self) -> Option<Entry>
        ensures entry { result ≡ self.old.waiting }
        ensures taken { self.new ≡ record self.old { waiting = None } }
        ensures stands { NextStands self.old result self.new }
    {
        self.waiting.take()
    }

    /// Says that no byte follows. What was fed is a script exactly where it answers `Ok`. It never answers `NoMemory`.
    pub fn end(&mut self) -> Result<(), ScriptFault>
        ensures ends { Ends self.old result self.new }
        ensures stands { EndStands self.old result self.new }
    {
        self.finish()
    }

    /// Says that no byte follows, as `end` does.
    fn finish(&mut self) -> Result<(), ScriptFault>
        ensures { Ends self.old result self.new }
    {
        if !self.stopped && matches!(self.step, Step::Start) {
            return Ok(());
        }
        Err(self.stop())
    }

    /// How many bytes were taken.
    pub fn taken(&self) -> u64
        ensures count { result ≡ self.now.taken }
        ensures stands { (read : List ℕ) (given : ℕ) → Stands self.now read given → result ≡ length read }
    {
        self.taken
    }
}
