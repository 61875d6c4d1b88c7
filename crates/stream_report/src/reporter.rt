//! The bytes of an input, as a report takes them.
ghost use Rattle.std.specs.Prelude.{◌≡◌, ℕ, ◌+◌, ◌<◌, ◌≤◌, ◌^◌, List, ◌++◌, length, IfOk, Some};
ghost use Rattle.ssap_decode.specs.Decoding.{fresh};
ghost use Rattle.stream_report.specs.Report.{verdict_at};
ghost use Rattle.stream_report.specs.Giving.{Outlet, outlet};
ghost use Rattle.stream_report.specs.Feeding.{Reports, IsReporting, Feeds, FeedsSome, Finishes, Halts};
ghost use Rattle.stream_report.specs.declared.verdict.Report.{Report as ReportOf};

use crate::lines::{write_last, write_message};
use crate::{Ending, Fault, Report, Verdict};
use sib_io::Sink;
use ssap_decode::{Decoder, Stop};
use std::alloc::Global;

/// A report on bytes so far: what reads them, and how many messages they have.
#[derive(Drop)]
pub(crate) struct Reporter {
    report: Report,
    decoder: Decoder,
    messages: u64,
}

impl Reporter {
    /// A report on no bytes. It takes no memory.
    pub(crate) fn new(alloc: Global, report: Report) -> Reporter
        ensures { result ≡ record { report = report; decoder = fresh; messages = 0 } }
    {
        Reporter {
            report,
            decoder: Decoder::new(alloc),
            messages: 0,
        }
    }

    /// Takes bytes, and writes what their messages give, up to the last of them or to a stop.
    pub(crate) fn feed<K: Sink>(
        &mut self,
        alloc: Global,
        bytes: &[u8],
        sink: &mut K,
    ) -> Result<(), Ending>
        requires fits { self.old.decoder.taken + length bytes.now < 2 ^ 63 }
        requires reporting { IsReporting self.old }
        ensures { (report : ReportOf) (old : Outlet) (read : List ℕ) → Reports report old (outlet (K.given sink.old) (K.faults sink.old)) read self.old
            → Feeds report old (outlet (K.given sink.new) (K.faults sink.new)) (read ++ bytes.now) (read ++ bytes.now) result self.new }
    {
        let mut rest = bytes;
        while !rest.is_empty() {
            let count = self.feed_some(alloc, rest, sink)?;
            rest = rest.split_at(count).1;
        }
        Ok(())
    }

    /// Says how a report ends after which no byte follows, and writes its last line.
    pub(crate) fn finish<K: Sink>(&mut self, alloc: Global, sink: &mut K) -> Ending
        ensures { (report : ReportOf) (old : Outlet) (read : List ℕ) → Reports report old (outlet (K.given sink.old) (K.faults sink.old)) read self.old
            → Finishes report old (outlet (K.given sink.new) (K.faults sink.new)) read result }
    {
        match self.decoder.end() {
            Ok(()) => self.conclude(alloc, Verdict::Fine, sink),
            Err(stop) => self.halt(alloc, stop, sink),
        }
    }

    // Takes bytes up to the end of a message or of the bytes, writes what the message gives, and says how many it took.
    fn feed_some<K: Sink>(
        &mut self,
        alloc: Global,
        bytes: &[u8],
        sink: &mut K,
    ) -> Result<usize, Ending>
        requires some { 0 < length bytes.now }
        requires fits { self.old.decoder.taken + length bytes.now < 2 ^ 63 }
        requires reporting { IsReporting self.old }
        ensures within { IfOk result (λ count. (0 < count) × (count ≤ length bytes.now)) }
        ensures feeds { (report : ReportOf) (old : Outlet) (read : List ℕ) → Reports report old (outlet (K.given sink.old) (K.faults sink.old)) read self.old
            → FeedsSome report old (outlet (K.given sink.new) (K.faults sink.new)) read bytes.now result self.new }
    {
        let count = match self.decoder.feed(alloc, bytes) {
            Ok(count) => count,
            Err(stop) => return Err(self.halt(alloc, stop, sink)),
        };
        let Some(framed) = self.decoder.next() else {
            return Ok(count);
        };
        write_message(self.report, &framed.envelope, sink)?;
        self.messages += 1;
        Ok(count)
    }

    // Ends a report whose decoder stopped.
    fn halt<K: Sink>(&self, alloc: Global, stop: Stop, sink: &mut K) -> Ending
        ensures { Halts self.now.report self.now.messages (verdict_at stop) (outlet (K.given sink.old) (K.faults sink.old)) (outlet (K.given sink.new) (K.faults sink.new)) result }
    {
        match verdict_of(stop) {
            Some(verdict) => self.conclude(alloc, verdict, sink),
            None => Ending::NoMemory,
        }
    }

    // Ends a report with this verdict.
    fn conclude<K: Sink>(&self, alloc: Global, verdict: Verdict, sink: &mut K) -> Ending
        ensures { Halts self.now.report self.now.messages (Some verdict) (outlet (K.given sink.old) (K.faults sink.old)) (outlet (K.given sink.new) (K.faults sink.new)) result }
    {
        match write_last(alloc, self.report, self.messages, verdict, sink) {
            Ok(()) => Ending::of(verdict),
            Err(ending) => ending,
        }
    }
}

// What a stop says of an input: nothing where it is out of memory.
fn verdict_of(stop: Stop) -> Option<Verdict>
    ensures { result ≡ verdict_at stop }
{
    let (place, fault) = match stop {
        Stop::Syntax { place } => (place, Fault::Syntax),
        Stop::TooLong { start } => (start, Fault::Long),
        Stop::Cut { start } => (start, Fault::Cut),
        Stop::NoMemory => return None,
    };
    Some(Verdict::Stops { place, fault })
}
