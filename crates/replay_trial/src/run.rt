//! A trial, from the first entry to the last line.
ghost use Rattle.std.specs.Prelude.{◌≡◌, ◌⊎◌, ◌≤◌, ℕ, List, [], ◌∷◌, IfOk};
ghost use Rattle.sib_replay.specs.Doing.{seen};
ghost use Rattle.sib_replay.specs.declared.ending.Ending.TheVariants.{WriteFault as SinkFailed};
ghost use Rattle.made_script.specs.Made.{made_space, made_len as len_of};
ghost use Rattle.replay_trial.specs.Trial.{IsTrial, ReadsWithin, Tried};
ghost use Rattle.replay_trial.specs.Playing.{Played, IsPlayed};

use crate::output::write_output;
use crate::player::Player;
use m3_terms::{NoMemory, Steps, TermFault, Text};
use made_script::made_len;
use sib_io::Sink;
use sib_replay::Ending;
use std::alloc::Global;
use std::sync::ledger::Ledger;
use std::thread::Threads;

/// Replays the generated script with so many updates, and writes how many confirms and how many indications are among its
/// answers, and then the last line of the replay. At the end the sink is flushed.
///
/// The script is made entry by entry, and of the answers no more than that to one entry is in memory at a time.
///
/// The ending is `Done`; `WriteFault`, only where the sink's count of faults rose; or `NoMemory`, where memory ran out or a count
/// passed 64 bits. After it the sink was given a prefix of the two lines. `steps` counts the rows of the graph that calls read.
///
/// | Line | What it says |
/// |---|---|
/// | `confirms C indications I` | among the messages that the replay writes C are confirms and I are indications |
/// | `= U T S` | U updates were accepted, the graph has T triples, and S subscriptions live |
pub fn trial<R: Threads + Sync, K: Sink, L: Ledger>(
    alloc: Global,
    rt: &R,
    updates: u32,
    sink: &mut K,
    steps: &mut Steps<L>,
) -> Ending
    requires few { updates ≤ 10000 }
    ensures tried { Tried updates (seen (K.given sink.old) (K.faults sink.old) steps.old) (seen (K.given sink.new) (K.faults sink.new) steps.new) result }
    ensures handed { (result ≡ SinkFailed) ⊎ (K.handed sink.new ≡ K.given sink.new) }
{
    let output = try_all(alloc, rt, updates, steps);
    let ending = write_output(sink, output);
    match sink.flush() {
        Ok(()) => ending,
        Err(_) => Ending::WriteFault,
    }
}

// Replays the script, and makes the lines that tell of it.
fn try_all<R: Threads + Sync, L: Ledger>(
    alloc: Global,
    rt: &R,
    updates: u32,
    steps: &mut Steps<L>,
) -> Result<Vec<u8>, NoMemory>
    requires few { updates ≤ 10000 }
    ensures counts { ReadsWithin updates steps.old steps.new }
    ensures output { IfOk result (λ output. IsTrial updates output.items) }
{
    let mut player = Player::new(alloc, space(alloc)?);
    play_all(alloc, rt, &mut player, updates, steps)?;
    player.report(alloc)
}

// Answers all entries of the script.
fn play_all<R: Threads + Sync, L: Ledger>(
    alloc: Global,
    rt: &R,
    player: &mut Player,
    updates: u32,
    steps: &mut Steps<L>,
) -> Result<(), NoMemory>
    requires few { updates ≤ 10000 }
    requires fresh { Played 0 [] player.old }
    ensures counts { ReadsWithin updates steps.old steps.new }
    ensures played { IfOk result (λ _. IsPlayed (len_of updates) player.new) }
{
    for position in 0..made_len(u64::from(updates)) {
        player.play(alloc, rt, position, steps)?;
    }
    Ok(())
}

// The name of the space of all requests.
#[tactic(auto, unfolding(made_script::specs::Made::made_space))]
fn space(alloc: Global) -> Result<Text, NoMemory>
    ensures { IfOk result (λ text. text ≡ made_space) }
{
    match Text::read(alloc, b"trial") {
        Ok(text) => Ok(text),
        Err(TermFault::NoMemory) => Err(NoMemory),
        Err(TermFault::Empty) => unreachable!(),
        Err(TermFault::TooLong { .. }) => unreachable!(),
        Err(TermFault::NotText { .. }) => unreachable!(),
    }
}
