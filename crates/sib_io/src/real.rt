ghost use Rattle.std.specs.Prelude.{◌≡◌, ◌<◌, ◌≤◌, length, take, IfSome, IfNone};
ghost use Rattle.std.specs.Io.KnownBytes.{Appends, Consumes, IsAtEnd, Keeps};

use crate::{Failed, Sink, Source};
use std::io::{ErrorKind, Read, Write};

/// A source over a reader of std. A read that was interrupted is tried again and is no fault.
#[derive(Drop)]
pub struct StdSource<R: Read + Drop> {
    inner: R,
    faults: u64,
}

impl<R: Read + Drop> StdSource<R> {
    /// A source over this reader, on which no call has failed.
    pub fn new(inner: R) -> StdSource<R>
        ensures { result ≡ record { inner = inner; faults = 0 } }
    {
        StdSource { inner, faults: 0 }
    }
}

impl<R: Read + Drop> Source for StdSource<R> {
    ghost left = { λ s. R.remaining s.inner };

    ghost faults = { λ s. s.faults };

    fn read(&mut self, into: &mut [u8]) -> Result<usize, Failed> {
        if let Some(count) = read_some(&mut self.inner, into) {
            return Ok(count);
        }
        self.faults = self.faults.saturating_add(1);
        Err(Failed)
    }
}

/// A sink over a writer of std. A write that was interrupted is tried again, and one that takes no byte is a fault.
#[derive(Drop)]
pub struct StdSink<W: Write + Drop> {
    inner: W,
    faults: u64,
}

impl<W: Write + Drop> StdSink<W> {
    /// A sink over this writer, on which no call has failed.
    pub fn new(inner: W) -> StdSink<W>
        ensures { result ≡ record { inner = inner; faults = 0 } }
    {
        StdSink { inner, faults: 0 }
    }
}

impl<W: Write + Drop> Sink for StdSink<W> {
    ghost given = { λ s. W.contents s.inner };

    ghost handed = { λ s. W.contents s.inner };

    ghost faults = { λ s. s.faults };

    fn write_all(&mut self, bytes: &[u8]) -> Result<(), Failed> {
        if write_out(&mut self.inner, bytes) < bytes.len() {
            self.faults = self.faults.saturating_add(1);
            return Err(Failed);
        }
        Ok(())
    }

    fn flush(&mut self) -> Result<(), Failed> {
        if self.inner.flush().is_err() {
            self.faults = self.faults.saturating_add(1);
            return Err(Failed);
        }
        Ok(())
    }
}

/// Reads once, and again where the read was interrupted.
fn read_some<R: Read>(reader: &mut R, into: &mut [u8]) -> Option<usize>
    ensures within { IfSome result (λ count. count ≤ length into.new) }
    ensures some { IfSome result (λ count. Consumes (R.remaining reader.old) (R.remaining reader.new) (take count into.new)) }
    ensures end { IfSome result (λ count. count ≡ 0 → 0 < length into.new → IsAtEnd (R.remaining reader.new)) }
    ensures none { IfNone result (Keeps (R.remaining reader.old) (R.remaining reader.new)) }
{
    for _ in 0..u64::MAX {
        match reader.read(into) {
            Ok(count) => return Some(count),
            Err(fault) => {
                if fault.kind() != ErrorKind::Interrupted {
                    return None;
                }
            }
        }
    }
    None
}

/// Writes bytes until the writer has taken all or fails, and answers how many it took.
pub(crate) fn write_out<W: Write>(writer: &mut W, bytes: &[u8]) -> usize
    ensures within { result ≤ length bytes.now }
    ensures taken { Appends (W.contents writer.old) (W.contents writer.new) (take result bytes.now) }
{
    let mut at = 0;
    while at < bytes.len() {
        match write_some(writer, bytes.split_at(at).1) {
            Some(count) => at += count,
            None => return at,
        }
    }
    at
}

/// Writes some of the bytes, and tries again where the write was interrupted.
fn write_some<W: Write>(writer: &mut W, bytes: &[u8]) -> Option<usize>
    ensures within { IfSome result (λ count. count ≤ length bytes.now) }
    ensures progress { IfSome result (λ count. 0 < count) }
    ensures some { IfSome result (λ count. Appends (W.contents writer.old) (W.contents writer.new) (take count bytes.now)) }
    ensures none { IfNone result (Keeps (W.contents writer.old) (W.contents writer.new)) }
{
    for _ in 0..u64::MAX {
        match writer.write(bytes) {
            Ok(count) => return taken(count),
            Err(fault) => {
                if fault.kind() != ErrorKind::Interrupted {
                    return None;
                }
            }
        }
    }
    None
}

/// The count of a write, or `None` where it took no byte.
fn taken(count: usize) -> Option<usize>
    ensures some { IfSome result (λ c. (c ≡ count) × (0 < count)) }
    ensures none { IfNone result (count ≡ 0) }
{
    if count == 0 { None } else { Some(count) }
}
