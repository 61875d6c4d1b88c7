//! A report on what a source has, written to a sink.
ghost use Rattle.std.specs.Prelude.{◌≡◌, ◌⊎◌, ◌+◌, ◌^◌, ◌<◌, ◌≤◌, ℕ, List, [], length, IfOk, OnOk};
ghost use Rattle.stream_report.specs.Ending.{Outside, outside, Ended};
ghost use Rattle.stream_report.specs.Turn.{Reading, IsReading, TurnsOn, ReadsPiece};
ghost use Rattle.stream_report.specs.declared.verdict.Report.{Report as ReportOf};
ghost use Rattle.stream_report.specs.declared.ending.Ending.TheVariants.{WriteFault as SinkFailed};

use crate::reporter::Reporter;
use crate::{Ending, Report};
use sib_io::{INPUT_LIMIT, Sink, Source, read_at_most};
use std::alloc::Global;

/// The most bytes that one read takes.
const BUFFER: usize = 65_536;

/// Reads a stream of messages from `source` to its end, or to where it is none, and writes a report on it to `sink`.
///
/// `Report::Check` writes `ok N` and a line end, where N is the number of messages. `Report::Show` writes each message in its
/// canonical spelling with a line end, as it comes. Where the input is no stream, or a message has more than 4,194,304 bytes,
/// both write a last line `! P fault` behind what came before: P is the offset of the byte with which no message goes on
/// (`syntax`), or that of the first byte of the message that is too long (`long`) or not whole at the end (`cut`).
///
/// The memory holds a piece of the input, one message at hand and a piece of output, whatever the length of the input. The sink is
/// flushed before each read, which may wait, and at the end.
///
/// | Ending | Where |
/// |---|---|
/// | `Done` | the input was read to its end, and is a stream whose messages are no longer than they may be |
/// | `Stopped` | the input is no such stream, which the last line says |
/// | `ReadFault` | the source failed; what came of the whole messages before was written, without a last line |
/// | `WriteFault` | the sink failed, at a write or a flush |
/// | `NoMemory` | out of memory |
/// | `Spent` | 1,099,511,627,776 bytes were taken, and the end was not seen |
pub fn write_report<S: Source, K: Sink>(
    alloc: Global,
    report: Report,
    source: &mut S,
    sink: &mut K,
) -> Ending
    ensures ended { Ended report (outside (S.left source.old) (K.given sink.old) (S.faults source.old) (K.faults sink.old))
        (outside (S.left source.new) (K.given sink.new) (S.faults source.new) (K.faults sink.new)) result }
    ensures handed { (result ≡ SinkFailed) ⊎ (K.handed sink.new ≡ K.given sink.new) }
{
    let ending = read_all(alloc, report, source, sink);
    match sink.flush() {
        Ok(()) => ending,
        Err(_) => Ending::WriteFault,
    }
}

// Reads and reports all that the source has.
fn read_all<S: Source, K: Sink>(
    alloc: Global,
    report: Report,
    source: &mut S,
    sink: &mut K,
) -> Ending
    ensures { Ended report (outside (S.left source.old) (K.given sink.old) (S.faults source.old) (K.faults sink.old))
        (outside (S.left source.new) (K.given sink.new) (S.faults source.new) (K.faults sink.new)) result }
{
    let mut reporter = Reporter::new(alloc, report);
    let mut buffer = [0u8; BUFFER];
    let mut left = INPUT_LIMIT;
    loop {
        match turn(alloc, &mut reporter, source, sink, &mut buffer, left) {
            Ok(count) => left -= count,
            Err(ending) => return ending,
        }
    }
}

// Reads once, at most so many bytes as may still be taken, and reports what was read.
fn turn<S: Source, K: Sink>(
    alloc: Global,
    reporter: &mut Reporter,
    source: &mut S,
    sink: &mut K,
    buffer: &mut [u8],
    left: u64,
) -> Result<u64, Ending>
    requires left { 0 < left }
    requires room { 0 < length buffer.old }
    requires small { length buffer.old ≤ BUFFER }
    requires reading { IsReading (outside (S.left source.old) (K.given sink.old) (S.faults source.old) (K.faults sink.old)) left reporter.old }
    ensures within { IfOk result (λ count. (0 < count) × (count < left)) }
    ensures turned { (report : ReportOf) (old : Outside) (read : List ℕ)
        → Reading report old (outside (S.left source.old) (K.given sink.old) (S.faults source.old) (K.faults sink.old)) read left reporter.old
        → TurnsOn report old (outside (S.left source.new) (K.given sink.new) (S.faults source.new) (K.faults sink.new)) read left reporter.new result }
{
    let count = read_piece(source, sink, buffer, left)?;
    if count == 0 {
        return Err(reporter.finish(alloc, sink));
    }
    if count as u64 == left {
        return Err(Ending::Spent);
    }
    reporter.feed(alloc, buffer.split_at(count).0, sink)?;
    Ok(count as u64)
}

// Hands on what was written, since the read may wait, and reads at most so many bytes.
fn read_piece<S: Source, K: Sink>(
    source: &mut S,
    sink: &mut K,
    buffer: &mut [u8],
    left: u64,
) -> Result<usize, Ending>
    requires left { 0 < left }
    requires room { 0 < length buffer.old }
    ensures within { IfOk result (λ count. (count ≤ left) × (count ≤ length buffer.new)) }
    ensures room { length buffer.new ≡ length buffer.old }
    ensures handed { OnOk result (K.handed sink.new ≡ K.given sink.new) }
    ensures reads { ReadsPiece (outside (S.left source.old) (K.given sink.old) (S.faults source.old) (K.faults sink.old))
        (outside (S.left source.new) (K.given sink.new) (S.faults source.new) (K.faults sink.new)) buffer.new result }
{
    match sink.flush() {
        Ok(()) => match read_at_most(source, buffer, left) {
            Ok(count) => Ok(count),
            Err(_) => Err(Ending::ReadFault),
        },
        Err(_) => Err(Ending::WriteFault),
    }
}
