//! What follows from a request: subscriptions are told, one after another.
ghost use Rattle.std.specs.Prelude.{◌≡◌, ◌+◌, ◌≤◌, ◌<◌, ◌^◌, ◌&&◌, map, filter, sum_by, OnOk, Contains};
ghost use Rattle.session_core.specs.Entries.{subscription_of, is_living as lives, living, Each, AreSound, IsSameEntry, IsReady, IsStepNext, HasRoomForNext, IsRoomier, IsCommitted, IsEnding, IsPassed, told_links_all, told_entries_all, ended_links_all, has_whose, ended_if};
ghost use Rattle.session_core.specs.Numbers.{graph_of, made, CanBeMade};
ghost use Rattle.session_core.specs.Reads.{wanted_cost};
ghost use Rattle.session_core.specs.declared.entry.Entry.{Entry as Kept};

use crate::entry::{Due, Entry};
use crate::facts::{Facts, Update};
use link_table::{LinkState, Links};
use m3_terms::{NoMemory, Steps, Text};
use ssap_shape::Status;
use std::alloc::Global;
use std::sync::ledger::Ledger;

/// Those whose subscriptions end: all of a node, or the one that a text names.
#[derive(Clone, Copy)]
pub(crate) enum Whose<'a> {
    Node(&'a Text),
    Named { node: &'a Text, digits: &'a Text },
}

impl<'a> Whose<'a> {
    /// Whether a subscription is one of these.
    pub fn has(self, entry: &Entry) -> bool
        ensures { result ≡ has_whose self.entry entry.now }
    {
        match self {
            Whose::Node(node) => entry.node.as_bytes() == node.as_bytes(),
            Whose::Named { node, digits } => {
                entry.node.as_bytes() == node.as_bytes()
                    && entry.digits.as_bytes() == digits.as_bytes()
            }
        }
    }
}

/// Whether a subscription lives: it has not ended, and its link is open.
pub(crate) fn is_living(links: &Links, entry: &Entry) -> bool
    ensures { result ≡ lives links.now entry.now }
{
    !entry.ended && matches!(links.state(entry.link), LinkState::Open)
}

/// Prepares what each living subscription comes to after an update.
pub(crate) fn prepare_all<L: Ledger>(
    alloc: Global,
    name: &Text,
    facts: &Facts,
    links: &Links,
    entries: &mut Vec<Entry>,
    update: &Update,
    steps: &mut Steps<L>,
) -> Result<(), NoMemory>
    requires sound { AreSound facts.now links.now entries.old.items }
    requires update { CanBeMade facts.now update.now.draft update.now.change }
    ensures same { Each IsSameEntry entries.old.items entries.new.items }
    ensures ready { OnOk result (Each (IsReady links.now facts.now (made facts.now update.now.draft update.now.change) name.now) entries.old.items entries.new.items) }
    ensures reads { steps.new ≤ steps.old + sum_by (λ subscription. wanted_cost (graph_of (made facts.now update.now.draft update.now.change)) subscription.wanted) (living links.now entries.old.items) }
{
    for entry in entries.iter_mut() {
        if is_living(links, entry) {
            entry.prepare(alloc, name, facts, update, steps)?;
        } else {
            entry.pass();
        }
    }
    Ok(())
}

/// Makes room for the steps that are prepared.
pub(crate) fn reserve_all(entries: &mut Vec<Entry>) -> Result<(), NoMemory>
    requires { (entry : Kept) → Contains entries.old.items entry → IsStepNext entry.watch entry.next }
    ensures same { Each IsRoomier entries.old.items entries.new.items }
    ensures room { OnOk result ((entry : Kept) → Contains entries.new.items entry → HasRoomForNext entry.watch entry.next) }
{
    for entry in entries.iter_mut() {
        entry.reserve()?;
    }
    Ok(())
}

/// Takes the steps that are prepared, which takes no memory.
pub(crate) fn commit_all(entries: &mut Vec<Entry>)
    requires { (entry : Kept) → Contains entries.old.items entry → HasRoomForNext entry.watch entry.next }
    ensures { Each IsCommitted entries.old.items entries.new.items }
{
    for entry in entries.iter_mut() {
        entry.commit();
    }
}

/// Tells each living subscription what is due to it, which takes no memory.
pub(crate) fn tell_all(links: &mut Links, entries: &mut Vec<Entry>)
    requires { (entry : Kept) → Contains entries.old.items entry → entry.sequence < 2 ^ 63 }
    ensures links { links.new ≡ told_links_all links.old entries.old.items }
    ensures entries { entries.new.items ≡ told_entries_all links.old entries.old.items }
{
    for entry in entries.iter_mut() {
        if is_living(links, entry) {
            entry.tell(links);
        }
    }
}

/// Prepares the farewells of those of these subscriptions that live.
pub(crate) fn prepare_ends(
    alloc: Global,
    name: &Text,
    links: &Links,
    entries: &mut Vec<Entry>,
    whose: Whose<'_>,
) -> Result<(), NoMemory>
    ensures same { Each IsSameEntry entries.old.items entries.new.items }
    ensures ready { OnOk result (Each (IsEnding links.now name.now whose.entry) entries.old.items entries.new.items) }
{
    for entry in entries.iter_mut() {
        if is_living(links, entry) && whose.has(entry) {
            entry.due = Due::End(entry.farewell(alloc, name, Status::Success)?);
            entry.next = None;
        } else {
            entry.pass();
        }
    }
    Ok(())
}

/// Ends these subscriptions.
pub(crate) fn end_all(entries: &mut Vec<Entry>, whose: Whose<'_>)
    ensures { entries.new.items ≡ map (ended_if whose.entry) entries.old.items }
{
    for entry in entries.iter_mut() {
        if whose.has(entry) {
            entry.ended = true;
        }
    }
}

/// Sends the farewells that are prepared, which takes no memory.
pub(crate) fn tell_ends(links: &mut Links, entries: &mut Vec<Entry>)
    ensures links { links.new ≡ ended_links_all links.old entries.old.items }
    ensures entries { Each IsPassed entries.old.items entries.new.items }
{
    for entry in entries.iter_mut() {
        entry.tell_end(links);
    }
}

/// Takes out the subscriptions that have ended.
pub(crate) fn sweep(links: &Links, entries: &mut Vec<Entry>)
    ensures { entries.new.items ≡ filter (lives links.now) entries.old.items }
{
    entries.retain(|entry| is_living(links, entry));
}
