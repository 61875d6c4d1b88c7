//! How subscriptions are made and ended.
ghost use Rattle.std.specs.Prelude.{◌&&◌, count_by, ◌≡◌, ◌+◌, ◌≤◌, ◌<◌, ◌^◌, ◌++◌, ◌∷◌, [], true, false, length, IsTrue, OnOk, OnErr, IfOk, MatchOption};
ghost use Rattle.std.specs.List.{IsDistinct, list_any};
ghost use Rattle.m3_terms.specs.Order.{term_eq};
ghost use Rattle.m3_intern.specs.Interned.{bytes_of_terms};
ghost use Rattle.link_table.specs.Links.{is_open, state_of};
ghost use Rattle.ssap_shape.specs.Replies.{HasFullAnswer};
ghost use Rattle.ssap_shape.specs.declared.request.Ask.TheVariants as asks;
ghost use Rattle.session_core.specs.Numbers.{graph_of, AreNumbers};
ghost use Rattle.session_core.specs.Entries.{new_entry, is_living as lives};
ghost use Rattle.std.specs.Str.{bytes_eq};
ghost use Rattle.session_core.specs.Ranks.{passed, subscribing, subscribed_under};
ghost use Rattle.session_core.specs.Reads.{query_cost, wanted_cost};
ghost use Rattle.session_core.specs.Requests.{is_unfit, confirm_bytes};
ghost use Rattle.session_core.specs.Prepared.{IsShort};
ghost use Rattle.session_core.specs.Graph.{with_named};
ghost use Rattle.session_core.specs.Subscriptions.{answer_over, width_over, constants_in, is_named};
ghost use Rattle.session_core.specs.Watches.{asked_of, wanted_in, with_terms, is_unstartable, IsAskedRightly, IsNamedBy, IsNewWatch};

use crate::asking::refusal;
use crate::confirm::{bare, confirm_message, short_message};
use crate::entry::{Due, Entry};
use crate::facts::Facts;
use crate::store::Store;
use crate::telling::{Whose, end_all, is_living, prepare_ends, tell_ends};
use crate::watch::{Asked, Watch};
use delta_eval::tables_may_grow;
use link_table::{Links, Message};
use m3_intern::Draft;
use m3_terms::{NoMemory, Steps, Text};
use sparql_read::read_query;
use ssap_items::Heads;
use ssap_shape::{Confirm, Status, Wish, number_text};
use std::alloc::Global;
use std::sync::ledger::Ledger;

/// The most subscriptions that may live.
pub const SUBSCRIPTION_LIMIT: usize = 256;

// A standing query that was started, and its new terms.
#[derive(Drop)]
struct Started {
    draft: Draft,
    watch: Watch,
}

// The new terms of what is asked for, or `None` where its terms are too many.
fn draft_of(alloc: Global, facts: &Facts, asked: &Asked) -> Result<Option<Draft>, NoMemory>
    ensures { IfOk result (λ found. MatchOption found (268435456 < bytes_of_terms (with_named facts.now.terms (constants_in (asked_of asked.now)))) (IsNamedBy facts.now (constants_in (asked_of asked.now)))) }
{
    facts.draft(asked.constants(alloc)?)
}

// Starts what is asked for over its new terms, or gives `None` where its width is over the limit.
fn start_over<L: Ledger>(
    alloc: Global,
    facts: &Facts,
    draft: Draft,
    asked: Asked,
    steps: &mut Steps<L>,
) -> Result<Option<Started>, NoMemory>
    requires rightly { IsAskedRightly asked }
    requires named { IsNamedBy facts.now (constants_in (asked_of asked)) draft }
    ensures started { IfOk result (λ found. MatchOption found (65536 < width_over (graph_of facts.now) (asked_of asked)) (λ started. IsNewWatch facts.now (asked_of asked) started.draft started.watch)) }
    ensures reads { steps.new ≤ steps.old + wanted_cost (graph_of facts.now) (asked_of asked) }
{
    match Watch::start(alloc, facts, &draft, asked, steps)? {
        Some(watch) => Ok(Some(Started { draft, watch })),
        None => Ok(None),
    }
}

// Starts what is asked for, or gives `None` where its terms are too many or its width is over the limit.
fn start<L: Ledger>(
    alloc: Global,
    facts: &Facts,
    asked: Asked,
    steps: &mut Steps<L>,
) -> Result<Option<Started>, NoMemory>
    requires { IsAskedRightly asked }
    ensures started { IfOk result (λ found. MatchOption found (IsTrue (is_unstartable facts.now (asked_of asked))) (λ started. IsNewWatch facts.now (asked_of asked) started.draft started.watch)) }
    ensures reads { steps.new ≤ steps.old + wanted_cost (graph_of facts.now) (asked_of asked) }
{
    match draft_of(alloc, facts, &asked) {
        Ok(Some(draft)) => start_over(alloc, facts, draft, asked, steps),
        Ok(None) => {
            drop(asked);
            Ok(None)
        }
        Err(fault) => {
            drop(asked);
            Err(fault)
        }
    }
}

// The confirm of a subscription under a number, with its first answer.
fn first_confirm(
    alloc: Global,
    facts: &Facts,
    started: &Started,
    heads: Heads,
    number: u64,
) -> Result<Confirm, NoMemory>
    requires { IsNewWatch facts.now (wanted_in started.now.watch) started.now.draft started.now.watch }
    ensures confirm { IfOk result (λ confirm. confirm ≡ subscribed_under number heads (answer_over (graph_of facts.now) (wanted_in started.now.watch))) }
    ensures full { IfOk result (λ confirm. HasFullAnswer confirm.answer) }
{
    let answer = started.watch.answer(alloc, facts, &started.draft)?;
    Ok(Confirm {
        heads,
        status: Status::Success,
        subscription: Some(number),
        answer: Some(answer),
    })
}

// The first confirm of a subscription as a message, or none where it would be too long, and the heads that it answers.
#[derive(Drop)]
struct Welcome {
    heads: Heads,
    message: Option<Message>,
}

// The first confirm of a subscription under a number, ready to be sent.
fn welcome_of(
    alloc: Global,
    facts: &Facts,
    started: &Started,
    heads: Heads,
    number: u64,
) -> Result<Welcome, NoMemory>
    requires { IsNewWatch facts.now (wanted_in started.now.watch) started.now.draft started.now.watch }
    ensures heads { IfOk result (λ welcome. welcome.heads ≡ heads) }
    ensures message { IfOk result (λ welcome. MatchOption welcome.message (4194304 < length (confirm_bytes (subscribed_under number heads (answer_over (graph_of facts.now) (wanted_in started.now.watch))))) (IsShort (confirm_bytes (subscribed_under number heads (answer_over (graph_of facts.now) (wanted_in started.now.watch)))))) }
{
    let confirm = first_confirm(alloc, facts, started, heads, number)?;
    let message = short_message(alloc, &confirm)?;
    let heads = confirm.heads;
    Ok(Welcome { heads, message })
}

// The entry of a subscription of which nothing was told yet.
fn entry_of(
    alloc: Global,
    number: u64,
    link: u32,
    heads: Heads,
    watch: Watch,
) -> Result<Entry, NoMemory>
    ensures { IfOk result (λ entry. entry ≡ new_entry number link heads watch) }
{
    Ok(Entry {
        number,
        digits: number_text(alloc, number)?,
        link,
        node: heads.node_id,
        transaction: heads.transaction_id,
        sequence: 0,
        ended: false,
        watch,
        next: None,
        due: Due::Nothing,
    })
}

// Puts an entry behind the others.
fn put_behind(entries: &mut Vec<Entry>, entry: Entry) -> Result<(), NoMemory>
    ensures entries { OnOk result (entries.new.items ≡ entries.old.items ++ entry ∷ []) }
    ensures err { OnErr result (entries.new.items ≡ entries.old.items) }
{
    entries.push(entry)?;
    Ok(())
}

// Keeps an entry behind the others, and the new terms of its standing query.
fn keep(
    facts: &mut Facts,
    entries: &mut Vec<Entry>,
    draft: Draft,
    entry: Entry,
) -> Result<(), NoMemory>
    requires once { IsDistinct term_eq (facts.old.terms ++ draft) }
    requires within { bytes_of_terms (facts.old.terms ++ draft) ≤ 268435456 }
    ensures facts { OnOk result (facts.new ≡ with_terms facts.old draft) }
    ensures entries { OnOk result (entries.new.items ≡ entries.old.items ++ entry ∷ []) }
    ensures facts_err { OnErr result (facts.new ≡ facts.old) }
    ensures entries_err { OnErr result (entries.new.items ≡ entries.old.items) }
    ensures numbers { OnOk result (AreNumbers facts.old) }
{
    match facts.terms.reserve_for(&draft) {
        Ok(()) => match put_behind(entries, entry) {
            Ok(()) => {
                facts.terms.commit(draft);
                Ok(())
            }
            Err(fault) => {
                drop(draft);
                Err(fault)
            }
        },
        Err(fault) => {
            drop(draft);
            drop(entry);
            Err(fault)
        }
    }
}

// Keeps what was started as the entry of a subscription, and its new terms.
fn keep_started(
    alloc: Global,
    facts: &mut Facts,
    entries: &mut Vec<Entry>,
    number: u64,
    link: u32,
    heads: Heads,
    started: Started,
) -> Result<(), NoMemory>
    requires once { IsDistinct term_eq (facts.old.terms ++ started.draft) }
    requires within { bytes_of_terms (facts.old.terms ++ started.draft) ≤ 268435456 }
    ensures facts { OnOk result (facts.new ≡ with_terms facts.old started.draft) }
    ensures entries { OnOk result (entries.new.items ≡ entries.old.items ++ new_entry number link heads started.watch ∷ []) }
    ensures facts_err { OnErr result (facts.new ≡ facts.old) }
    ensures entries_err { OnErr result (entries.new.items ≡ entries.old.items) }
    ensures numbers { OnOk result (AreNumbers facts.old) }
{
    let Started { draft, watch } = started;
    match entry_of(alloc, number, link, heads, watch) {
        Ok(entry) => keep(facts, entries, draft, entry),
        Err(fault) => {
            drop(draft);
            Err(fault)
        }
    }
}

// How many entries live.
fn count_living(links: &Links, entries: &[Entry]) -> usize
    ensures { result ≡ count_by (lives links.now) entries.now }
{
    entries
        .iter()
        .filter(|entry| is_living(links, entry))
        .count()
}

// Whether a living entry is of a node and has these digits.
fn has_living(links: &Links, entries: &[Entry], node: &Text, digits: &Text) -> bool
    ensures { result ≡ list_any (λ entry. lives links.now entry && (bytes_eq entry.node node.now && bytes_eq entry.digits digits.now)) entries.now }
{
    entries.iter().any(|entry| {
        is_living(links, entry) && Whose::Named { node, digits }.has(entry)
    })
}

impl Store {
    /// How many subscriptions live.
    pub fn living(&self) -> usize
        ensures { result ≡ length self.now.subscriptions }
    {
        count_living(&self.links, self.entries.as_slice())
    }

    /// Whether a text names a living subscription of a node.
    pub fn has_named(&self, node: &Text, text: &Text) -> bool
        ensures { result ≡ list_any (is_named node.now text.now) self.now.subscriptions }
    {
        has_living(&self.links, self.entries.as_slice(), node, text)
    }

    /// Makes a subscription and answers it for the first time, unless its text says no query or a limit refuses it.
    pub fn subscribe<L: Ledger>(
        &mut self,
        alloc: Global,
        link: u32,
        heads: Heads,
        wish: Wish,
        steps: &mut Steps<L>,
    ) -> Result<(), NoMemory>
        requires few { self.old.numbered < 2 ^ 62 }
        requires open { is_open (state_of self.old.links link) ≡ true }
        ensures space { OnOk result (self.new ≡ passed self.old link heads (asks.Subscribe wish)) }
        ensures err { OnErr result (self.new ≡ self.old) }
        ensures cost { steps.new ≤ steps.old + query_cost self.old.graph wish }
    {
        match wish {
            Wish::Templates(templates) => {
                self.watch(alloc, link, heads, Asked::Templates(templates), steps)
            }
            Wish::Sparql(text) => match read_query(alloc, text.as_bytes()) {
                Ok(query) => self.watch(alloc, link, heads, Asked::Select(query), steps),
                Err(fault) => match refusal(fault) {
                    Some(status) => self.answer(alloc, link, heads, status),
                    None => Err(NoMemory),
                },
            },
        }
    }

    // Makes a subscription to what is asked for, unless a limit refuses it.
    fn watch<L: Ledger>(
        &mut self,
        alloc: Global,
        link: u32,
        heads: Heads,
        asked: Asked,
        steps: &mut Steps<L>,
    ) -> Result<(), NoMemory>
        requires few { self.old.numbered < 2 ^ 62 }
        requires open { is_open (state_of self.old.links link) ≡ true }
        requires rightly { IsAskedRightly asked }
        ensures space { OnOk result (self.new ≡ subscribing self.old link heads (asked_of asked)) }
        ensures err { OnErr result (self.new ≡ self.old) }
        ensures cost { steps.new ≤ steps.old + wanted_cost self.old.graph (asked_of asked) }
    {
        if self.living() >= SUBSCRIPTION_LIMIT {
            drop(asked);
            return self.answer(alloc, link, heads, Status::OutOfResources);
        }
        let Some(started) = start(alloc, &self.facts, asked, steps)? else {
            return self.answer(alloc, link, heads, Status::OutOfResources);
        };
        let number = self.numbered + 1;
        let welcome = match welcome_of(alloc, &self.facts, &started, heads, number) {
            Ok(welcome) => welcome,
            Err(fault) => {
                drop(started);
                return Err(fault);
            }
        };
        let Welcome { heads, message } = welcome;
        match message {
            Some(message) => {
                tables_may_grow();
                keep_started(
                    alloc,
                    &mut self.facts,
                    &mut self.entries,
                    number,
                    link,
                    heads,
                    started,
                )?;
                self.numbered = number;
                self.links.send(link, message);
                Ok(())
            }
            None => {
                drop(started);
                self.answer(alloc, link, heads, Status::OutOfResources)
            }
        }
    }

    /// Ends the subscription of the node that a text names, and tells it so.
    pub fn unsubscribe(
        &mut self,
        alloc: Global,
        link: u32,
        heads: Heads,
        text: &Text,
    ) -> Result<(), NoMemory>
        requires { is_unfit self.old heads (asks.Unsubscribe text.now) ≡ false }
        ensures space { OnOk result (self.new ≡ passed self.old link heads (asks.Unsubscribe text.now)) }
        ensures err { OnErr result (self.new ≡ self.old) }
    {
        let confirm = bare(heads, Status::Success);
        let message = confirm_message(alloc, &confirm)?;
        let whose = Whose::Named {
            node: &confirm.heads.node_id,
            digits: text,
        };
        prepare_ends(alloc, &self.name, &self.links, &mut self.entries, whose)?;
        end_all(&mut self.entries, whose);
        self.links.send(link, message);
        tell_ends(&mut self.links, &mut self.entries);
        Ok(())
    }
}
