//! A trial on its way: entry by entry.
ghost use Rattle.std.specs.Prelude.{◌≡◌, ◌++◌, ◌<◌, ◌^◌, ℕ, List, [], IfOk, IfSome};
ghost use Rattle.sib_replay.specs.Output.{Event, last_line};
ghost use Rattle.sib_replay.specs.Session.{CanAnswer, Delivers, Stands};
ghost use Rattle.sib_replay.specs.Doing.{seen};
ghost use Rattle.made_script.specs.Made.{made_space};
ghost use Rattle.replay_trial.specs.Trial.{counts_line};
ghost use Rattle.replay_trial.specs.Playing.{Played, IsPlayed, Plays, Answered, CountsAnswer};
ghost use Rattle.replay_trial.specs.Reading.{both_replies};

use crate::kept::Kept;
use crate::replies::{Replies, count_replies};
use m3_terms::{NoMemory, Steps, Text};
use made_script::made_entry;
use sib_replay::Session;
use sib_script::Entry;
use std::alloc::Global;
use std::sync::ledger::Ledger;
use std::thread::Threads;

/// The session that answers the script, its answer to the entry at hand, and what was counted so far.
#[derive(Drop)]
pub struct Player {
    session: Session,
    kept: Kept,
    replies: Replies,
}

impl Player {
    /// A player before the first entry, with a space of this name.
    pub fn new(alloc: Global, name: Text) -> Player
        requires name { name ≡ made_space }
        ensures { Played 0 [] result }
    {
        Player {
            session: Session::new(alloc, name),
            kept: Kept::new(alloc),
            replies: Replies {
                confirms: 0,
                indications: 0,
            },
        }
    }

    /// Answers the entry at this position of the script, and counts the confirms and the indications of its answer. No more
    /// than one answer is kept. After `NoMemory` the player is of no use.
    pub fn play<R: Threads + Sync, L: Ledger>(
        &mut self,
        alloc: Global,
        rt: &R,
        position: u64,
        steps: &mut Steps<L>,
    ) -> Result<(), NoMemory>
        requires few { position < 2 ^ 32 }
        requires ready { IsPlayed position self.old }
        ensures { (events : List Event) → Played position events self.old → Plays position events steps.old steps.new self.new result }
    {
        let entry = made_entry(alloc, position)?;
        self.answer(alloc, rt, &entry, steps)?;
        self.count()
    }

    /// The line of the counts, and then the last line of the replay.
    #[tactic(auto, unfolding(crate::specs::Trial::counts_line))]
    pub fn report(&self, alloc: Global) -> Result<Vec<u8>, NoMemory>
        ensures { IfOk result (λ output. output.items ≡ counts_line self.now.replies ++ last_line self.now.session.core.space) }
    {
        let confirms = self.replies.confirms;
        let indications = self.replies.indications;
        let mut output = format!(in alloc;
            "confirms {confirms} indications {indications}\n"
        )?.into_bytes();
        output.extend_from_slice(&self.session.last_line(alloc)?)?;
        Ok(output)
    }

    // Answers an entry into the memory for an answer.
    fn answer<R: Threads + Sync, L: Ledger>(
        &mut self,
        alloc: Global,
        rt: &R,
        entry: &Entry,
        steps: &mut Steps<L>,
    ) -> Result<(), NoMemory>
        requires can { CanAnswer self.old.session entry.now }
        requires empty { self.old.kept.bytes.items ≡ [] }
        ensures replies { self.new.replies ≡ self.old.replies }
        ensures answered { (events : List Event) → Stands made_space self.old.session events
            → Answered events entry.now steps.old steps.new self.new result }
    {
        match self.session.answer(alloc, rt, entry, &mut self.kept, steps) {
            Ok(()) => Ok(()),
            Err(_) => Err(NoMemory),
        }
    }

    // Counts what the answer has, and empties the memory.
    fn count(&mut self) -> Result<(), NoMemory>
        ensures session { self.new.session ≡ self.old.session }
        ensures counted { IfOk result (λ _. CountsAnswer self.old.replies self.old.kept.bytes.items self.new) }
    {
        let answered = count_replies(self.kept.as_slice());
        let Some(replies) = self.replies.plus(answered) else {
            return Err(NoMemory);
        };
        self.replies = replies;
        self.kept.clear();
        Ok(())
    }
}
