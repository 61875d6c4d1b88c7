//! The commands of the broker, over a source and a sink.
ghost use Rattle.std.specs.Prelude.{◌≡◌, ◌≢◌, ◌⊎◌, ℕ, List, Option, MatchResult};
ghost use Rattle.sib_io.specs.Causes.{Rose};
ghost use Rattle.ssap_shape.specs.Sound.{IsSoundId};
ghost use Rattle.kp_talk.specs.Words.{texts};
ghost use Rattle.sib_replay.specs.Ending.{outside, Ended};
ghost use Rattle.sib_replay.specs.declared.ending.Ending.TheVariants.{Done as AllDone, NoMemory as OutOfMemory, WriteFault as SinkFailed};
ghost use Rattle.sib_app.specs.Commands.{Command as Asked, IsCommandOf, IsForm, IsSoundCommand, ReadsNothing, meant};
ghost use Rattle.sib_app.specs.Ending.{Comes, MakesScript, ending_at};
ghost use Rattle.sib_app.specs.Means.{Means};

use crate::command::{Command, command_of};
use m3_terms::{Steps, Text};
use made_script::make_script;
use replay_trial::trial;
use sib_io::{Sink, Source};
use sib_replay::{Ending, replay_script};
use ssap_encode::EncodeFault;
use std::alloc::Global;
use std::sync::ledger::Ledger;
use std::thread::Threads;
use stream_report::write_report;

/// Runs the command that the words name, over a source and a sink that are lent to it, and answers its exit status.
///
/// | Words | What the command does |
/// |---|---|
/// | `replay SPACE` | reads a script, and writes what the links of a space of this name are sent, and a last line |
/// | `show` | reads a stream of messages, and writes each in its canonical spelling, with a line end |
/// | `check` | reads a stream of messages, and writes `ok N` and a line end, where N is their number |
/// | `make N` | writes the generated script of N updates |
/// | `trial N` | replays that script in the space `trial`, and writes `confirms C indications I` and a line end, and then the last line of the replay |
///
/// SPACE is a text of 1 to 1,024 bytes, and N is from 1 to 10,000 in decimal without a leading zero. `make` and `trial` read
/// nothing. Where the input of `show` or `check` is no stream of messages that are no longer than they may be, both write a last
/// line `! P fault`; where that of `replay` is no script, the last line is `? P`.
///
/// Each works piece by piece: but for the space of `replay` and `trial`, the memory does not grow with the input or the output.
/// Before each read, which may wait, the sink is flushed, and again at the end, so that a sink that gathers output withholds
/// nothing. `steps` counts the rows of the graph that calls read. The runtime is for work on threads, of which there is none yet.
///
/// | Status | Where |
/// |---|---|
/// | 0 | done: the input of `replay`, `show` and `check` was read to its end and is what it must be, and all of the output was written |
/// | 1 | `show`, `check`: the input is no stream of messages, or a message is too long, which the last line says |
/// | 2 | the words are no form; nothing was read or written, and no memory was taken |
/// | 3 | `replay`: no script begins with the bytes that were read, or the input ended inside an entry, which the last line says |
/// | 4 | the source failed; what comes of the whole entries or messages before was written |
/// | 5 | the sink failed, at a write or a flush |
/// | 6 | out of memory, or the space has done the 2^62 calls that it can count |
/// | 7 | 1,099,511,627,776 bytes were taken, and the end was not seen |
pub fn sib_run<R: Threads + Sync, S: Source, K: Sink, L: Ledger>(
    alloc: Global,
    rt: &R,
    words: &[String],
    source: &mut S,
    sink: &mut K,
    steps: &mut Steps<L>,
) -> u8
    // Which words run: no others, and these always.
    ensures form { result ≡ 2 → ¬ IsForm (texts words.now) }
    ensures no_form { ¬ IsForm (texts words.now) → result ≡ 2 }
    ensures untouched { ¬ IsForm (texts words.now) → (source.new ≡ source.old) × (sink.new ≡ sink.old) × (steps.new ≡ steps.old) }
    ensures unread { (command : Asked) → IsCommandOf (texts words.now) command → ReadsNothing command → source.new ≡ source.old }

    // What was read, written and counted at each status.
    ensures run { (command : Asked) → IsCommandOf (texts words.now) command → Comes command
        (outside (S.left source.old) (K.given sink.old) (S.faults source.old) (K.faults sink.old) steps.old)
        (outside (S.left source.new) (K.given sink.new) (S.faults source.new) (K.faults sink.new) steps.new) result }
    ensures means { (command : Asked) → IsCommandOf (texts words.now) command → Means command
        (outside (S.left source.old) (K.given sink.old) (S.faults source.old) (K.faults sink.old) steps.old)
        (outside (S.left source.new) (K.given sink.new) (S.faults source.new) (K.faults sink.new) steps.new) result }

    // Where the outside is to blame, and where it isn't.
    ensures read_fault { result ≡ 4 → Rose (S.faults source.old) (S.faults source.new) }
    ensures write_fault { result ≡ 5 → Rose (K.faults sink.old) (K.faults sink.new) }
    ensures faultless { result ≢ 4 → result ≢ 5 → (S.faults source.new ≡ S.faults source.old) × (K.faults sink.new ≡ K.faults sink.old) }
    ensures handed { result ≢ 2 → result ≢ 5 → result ≢ 6 → K.handed sink.new ≡ K.given sink.new }
{
    match command_of(words) {
        Some(command) => run(alloc, rt, command, source, sink, steps),
        None => 2,
    }
}

// Runs a command.
fn run<R: Threads + Sync, S: Source, K: Sink, L: Ledger>(
    alloc: Global,
    rt: &R,
    command: Command<'_>,
    source: &mut S,
    sink: &mut K,
    steps: &mut Steps<L>,
) -> u8
    requires sound { IsSoundCommand (meant command) }
    ensures unread { ReadsNothing (meant command.entry) → source.new ≡ source.old }
    ensures comes { Comes (meant command.entry)
        (outside (S.left source.old) (K.given sink.old) (S.faults source.old) (K.faults sink.old) steps.old)
        (outside (S.left source.new) (K.given sink.new) (S.faults source.new) (K.faults sink.new) steps.new) result }
    ensures handed { result ≢ 5 → result ≢ 6 → K.handed sink.new ≡ K.given sink.new }
{
    match command {
        Command::Replay(name) => replay(alloc, rt, name, source, sink, steps).status(),
        Command::Report(kind) => write_report(alloc, kind, source, sink).status(),
        Command::Make(updates) => make(alloc, updates, sink).status(),
        Command::Trial(updates) => trial(alloc, rt, updates, sink, steps).status(),
    }
}

// Replays the script that the source has, in the space of this name.
fn replay<R: Threads + Sync, S: Source, K: Sink, L: Ledger>(
    alloc: Global,
    rt: &R,
    name: &[u8],
    source: &mut S,
    sink: &mut K,
    steps: &mut Steps<L>,
) -> Ending
    requires named { IsSoundId name.now }
    ensures ended { Ended name.now (outside (S.left source.old) (K.given sink.old) (S.faults source.old) (K.faults sink.old) steps.old)
        (outside (S.left source.new) (K.given sink.new) (S.faults source.new) (K.faults sink.new) steps.new) result }
    ensures handed { (result ≡ SinkFailed) ⊎ (result ≡ OutOfMemory) ⊎ (K.handed sink.new ≡ K.given sink.new) }
{
    match Text::read(alloc, name) {
        Ok(name) => replay_script(alloc, rt, name, source, sink, steps),
        Err(_) => Ending::NoMemory,
    }
}

// Makes the script of so many updates, and hands it on.
fn make<K: Sink>(alloc: Global, updates: u32, sink: &mut K) -> Ending
    ensures made { (left : Option (List ℕ)) (faults steps : ℕ) → MakesScript updates (outside left (K.given sink.old) faults (K.faults sink.old) steps)
        (outside left (K.given sink.new) faults (K.faults sink.new) steps) result }
    ensures handed { (result ≡ SinkFailed) ⊎ (K.handed sink.new ≡ K.given sink.new) }
{
    let made = make_script(alloc, updates, sink);
    match sink.flush() {
        Ok(()) => ending_of(made),
        Err(_) => Ending::WriteFault,
    }
}

// How the making of a script ends.
fn ending_of(made: Result<(), EncodeFault>) -> Ending
    ensures { MatchResult made (λ _. result ≡ AllDone) (λ fault. result ≡ ending_at fault) }
{
    match made {
        Ok(()) => Ending::Done,
        Err(EncodeFault::WriteFault) => Ending::WriteFault,
        Err(EncodeFault::NoMemory) => Ending::NoMemory,
    }
}
