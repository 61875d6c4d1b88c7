ghost use Rattle.std.specs.Prelude.{◌≡◌, ◌+◌, ◌≤◌, ◌++◌, [], length, IsOk, IfOk, OnOk};
ghost use Rattle.std.specs.Io.KnownBytes.{Keeps, append_known};
ghost use Rattle.m3_terms.specs.Counts.{one_more};
ghost use Rattle.sib_io.specs.Causes.{HasCause, Writes};
ghost use Rattle.sib_io.specs.declared.piece.TheConstants.{PIECE_LIMIT};

use crate::piece::Piece;
use crate::real::write_out;
use crate::{Failed, Sink};
use m3_terms::NoMemory;
use std::alloc::Global;
use std::io::Write;

/// A sink over a writer of std that gathers bytes, so that many small writes become few large ones. It keeps at most
/// `PIECE_LIMIT` bytes back, and writes them out when more come than fit beside them, and when it is flushed. A write of
/// more than `PIECE_LIMIT` bytes goes to the writer without a copy.
///
/// After `Failed`, the bytes that the writer did not take are still kept. Nothing of a write is taken before the writer has
/// taken all that was kept.
#[derive(Drop)]
pub struct GatheredSink<W: Write + Drop> {
    inner: W,
    kept: Piece,
    faults: u64,
}

impl<W: Write + Drop> GatheredSink<W> {
    /// A sink over this writer, on which no call has failed. It takes all its memory here; after `NoMemory` the writer is
    /// dropped.
    pub fn new(alloc: Global, inner: W) -> Result<GatheredSink<W>, NoMemory>
        ensures { IfOk result (λ sink. sink ≡ record { inner = inner; kept = []; faults = 0 }) }
    {
        Ok(GatheredSink {
            inner,
            kept: Piece::new(alloc)?,
            faults: 0,
        })
    }

    /// The writer, which has all but the bytes that are kept back.
    pub fn writer(&self) -> &W
        ensures { result.now ≡ self.now.inner }
    {
        &self.inner
    }

    /// Counts a fault.
    fn fail(&mut self) -> Failed
        ensures inner { self.new.inner ≡ self.old.inner }
        ensures kept { self.new.kept ≡ self.old.kept }
        ensures later { self.old.faults ≤ self.new.faults }
        ensures counted { one_more self.old.faults ≤ self.new.faults }
    {
        self.faults = self.faults.saturating_add(1);
        Failed
    }
}

impl<W: Write + Drop> Sink for GatheredSink<W> {
    ghost given = { λ s. append_known (W.contents s.inner) s.kept };

    ghost handed = { λ s. W.contents s.inner };

    ghost faults = { λ s. s.faults };

    fn write_all(&mut self, bytes: &[u8]) -> Result<(), Failed>
        ensures bytes { Writes (append_known (W.contents self.old.inner) self.old.kept) (append_known (W.contents self.new.inner) self.new.kept) result bytes.now }
        ensures cause { HasCause self.old.faults self.new.faults result }
        ensures gathers { length self.old.kept + length bytes.now ≤ PIECE_LIMIT → IsOk result × (self.new ≡ record self.old { kept = self.old.kept ++ bytes.now }) }
    {
        if self.kept.put(bytes) {
            return Ok(());
        }
        if !self.kept.write_to(&mut self.inner) {
            return Err(self.fail());
        }
        if self.kept.put(bytes) {
            return Ok(());
        }
        if write_out(&mut self.inner, bytes) < bytes.len() {
            return Err(self.fail());
        }
        Ok(())
    }

    fn flush(&mut self) -> Result<(), Failed> {
        if !self.kept.write_to(&mut self.inner) || self.inner.flush().is_err() {
            return Err(self.fail());
        }
        Ok(())
    }
}
