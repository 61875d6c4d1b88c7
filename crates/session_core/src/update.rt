//! How the graph is updated.
ghost use Rattle.std.specs.Prelude.{◌≡◌, ◌+◌, ◌≤◌, ◌<◌, ◌^◌, false, IfOk, OnOk, OnErr};
ghost use Rattle.std.specs.Option.{option_map_or};
ghost use Rattle.link_table.specs.Links.{changed, sent};
ghost use Rattle.ssap_shape.specs.declared.request.Ask.TheVariants as asks;
ghost use Rattle.session_core.specs.Requests.{is_unfit, due_if};
ghost use Rattle.session_core.specs.Reads.{update_cost};
ghost use Rattle.session_core.specs.Ranks.{passed};

use crate::confirm::{bare, confirm_message};
use crate::store::Store;
use crate::telling::{commit_all, prepare_all, reserve_all, tell_all};
use link_table::{Links, Message};
use m3_terms::{NoMemory, Patterns, Steps};
use ssap_items::Heads;
use ssap_shape::Status;
use std::alloc::Global;
use std::sync::ledger::Ledger;

// The confirm of success, where it is wanted.
fn success(alloc: Global, heads: Heads, wanted: bool) -> Result<Option<Message>, NoMemory>
    ensures { IfOk result (λ due. due ≡ due_if wanted heads) }
{
    if wanted {
        let message = confirm_message(alloc, &bare(heads, Status::Success))?;
        Ok(Some(message))
    } else {
        Ok(None)
    }
}

// Sends a message, where there is one.
fn send_due(links: &mut Links, link: u32, due: Option<Message>)
    ensures { links.new ≡ option_map_or (λ message. changed (sent message) links.old link) due links.old }
{
    match due {
        Some(message) => links.send(link, message),
        None => {}
    }
}

impl Store {
    /// Removes the triples that fit patterns and then inserts others, unless a limit refuses it, and tells the subscriptions
    /// what changed. What may fail comes first.
    pub fn update<L: Ledger>(
        &mut self,
        alloc: Global,
        link: u32,
        heads: Heads,
        remove: &Patterns,
        insert: &Patterns,
        confirm: bool,
        steps: &mut Steps<L>,
    ) -> Result<(), NoMemory>
        requires few { self.old.updates < 2 ^ 62 }
        requires triples { is_unfit self.old heads (asks.Update remove.now insert.now confirm) ≡ false }
        ensures space { OnOk result (self.new ≡ passed self.old link heads (asks.Update remove.now insert.now confirm)) }
        ensures err { OnErr result (self.new ≡ self.old) }
        ensures cost { steps.new ≤ steps.old + update_cost self.old remove.now insert.now }
    {
        let Some(update) = self.facts.prepare(alloc, remove, insert, steps)? else {
            return self.answer(alloc, link, heads, Status::OutOfResources);
        };
        let due = success(alloc, heads, confirm)?;
        let entries = &mut self.entries;
        prepare_all(
            alloc,
            &self.name,
            &self.facts,
            &self.links,
            entries,
            &update,
            steps,
        )?;
        reserve_all(entries)?;
        self.facts.make(update)?;
        self.updates += 1;
        commit_all(entries);
        send_due(&mut self.links, link, due);
        tell_all(&mut self.links, entries);
        Ok(())
    }
}
