//! What a report writes.
ghost use Rattle.std.specs.Prelude.{◌≡◌, ◌++◌, ◌∷◌, [], codes, IfOk};
ghost use Rattle.std.specs.Fmt.{decimal};
ghost use Rattle.stream_report.specs.Report.{fault_word, stop_line, ok_line, message_line, last_line};
ghost use Rattle.stream_report.specs.Giving.{outlet, Does};
ghost use Rattle.stream_report.specs.declared.verdict.Verdict.TheVariants.{Fine as IsStream};

use crate::{Ending, Fault, Report, Verdict};
use sib_io::Sink;
use ssap_encode::{Raw, Spell, Then, write_spelled};
use ssap_items::Envelope;
use std::alloc::Global;

/// Writes a message on a line of its own, where messages are shown. It takes no memory.
pub(crate) fn write_message<K: Sink>(
    report: Report,
    envelope: &Envelope,
    sink: &mut K,
) -> Result<(), Ending>
    ensures { Does (outlet (K.given sink.old) (K.faults sink.old)) (outlet (K.given sink.new) (K.faults sink.new)) result (message_line report envelope.now) }
{
    match report {
        Report::Show => write(&Then(envelope, Raw(b"\n")), sink),
        Report::Check => Ok(()),
    }
}

/// Writes the last line of a report on so many messages, if it has one.
pub(crate) fn write_last<K: Sink>(
    alloc: Global,
    report: Report,
    count: u64,
    verdict: Verdict,
    sink: &mut K,
) -> Result<(), Ending>
    ensures { Does (outlet (K.given sink.old) (K.faults sink.old)) (outlet (K.given sink.new) (K.faults sink.new)) result (last_line report count verdict) }
{
    match verdict {
        Verdict::Fine => write_count(alloc, report, count, sink),
        Verdict::Stops { place, fault } => write_stop(alloc, place, fault, sink),
    }
}

// Writes the number of messages, where they are counted.
#[tactic(auto, unfolding(crate::specs::Report::ok_line))]
fn write_count<K: Sink>(
    alloc: Global,
    report: Report,
    count: u64,
    sink: &mut K,
) -> Result<(), Ending>
    ensures { Does (outlet (K.given sink.old) (K.faults sink.old)) (outlet (K.given sink.new) (K.faults sink.new)) result (last_line report count Rattle.stream_report.specs.declared.verdict.Verdict.TheVariants.Fine) }
{
    if report == Report::Show {
        return Ok(());
    }
    let Ok(line) = format!(in alloc; "ok {count}\n") else {
        return Err(Ending::NoMemory);
    };
    write(&Raw(line.as_bytes()), sink)
}

// Writes the line of a stop.
fn write_stop<K: Sink>(alloc: Global, place: u64, fault: Fault, sink: &mut K) -> Result<(), Ending>
    ensures { Does (outlet (K.given sink.old) (K.faults sink.old)) (outlet (K.given sink.new) (K.faults sink.new)) result (stop_line place fault) }
{
    let word = word_of(fault);
    let Ok(line) = format!(in alloc; "! {place} {word}\n") else {
        return Err(Ending::NoMemory);
    };
    write(&Raw(line.as_bytes()), sink)
}

// Writes what has a spelling.
fn write<T: Spell, K: Sink>(spelled: &T, sink: &mut K) -> Result<(), Ending>
    ensures { Does (outlet (K.given sink.old) (K.faults sink.old)) (outlet (K.given sink.new) (K.faults sink.new)) result (T.spelling spelled.now) }
{
    Ok(write_spelled(spelled, sink)?)
}

// The word for why an input is no stream.
#[tactic(auto, unfolding(crate::specs::Report::fault_word))]
fn word_of(fault: Fault) -> &'static str
    ensures { result.now ≡ fault_word fault }
{
    match fault {
        Fault::Syntax => "syntax",
        Fault::Long => "long",
        Fault::Cut => "cut",
    }
}
