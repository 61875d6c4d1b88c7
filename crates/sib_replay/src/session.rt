ghost use Rattle.std.specs.Prelude.{ℕ, ◌≡◌, List, [], true, IfOk};
ghost use Rattle.link_table.specs.Links.{is_open, state_of};
ghost use Rattle.sib_script.specs.declared.entry.Entry.TheVariants.{NewLink, Bytes as Delivery, End};
ghost use Rattle.sib_replay.specs.Doing.{seen};
ghost use Rattle.sib_replay.specs.Output.{Event, last_line};

use crate::acting::act;
use crate::ending::Fault;
use crate::hearing::{end_of, hear_all, runs};
use crate::lines::write_closed;
use m3_terms::{NoMemory, Steps, Text};
use session_core::{Call, Core};
use sib_io::Sink;
use sib_script::Entry;
use ssap_decode::Decoder;
use std::alloc::Global;
use std::collections::BTreeMap;
use std::sync::ledger::Ledger;
use std::thread::Threads;

/// The links of a script, and the space behind them.
#[derive(Drop)]
pub struct Session {
    core: Core,
    /// What reads the bytes of each open link.
    decoders: BTreeMap<u32, Decoder>,
}

impl Session {
    ghost use Rattle.sib_replay.specs.Session.{Stands, Delivers, CanAnswer};

    /// No link, and a space in which nothing happened.
    pub fn new(alloc: Global, name: Text) -> Session
        ensures { Stands name result [] }
    {
        Session {
            core: Core::new(alloc, name),
            decoders: BTreeMap::new(alloc),
        }
    }

    /// Answers an entry.
    pub fn answer<R: Threads + Sync, K: Sink, L: Ledger>(
        &mut self,
        alloc: Global,
        rt: &R,
        entry: &Entry,
        sink: &mut K,
        steps: &mut Steps<L>,
    ) -> Result<(), Fault>
        requires can { CanAnswer self.old entry.now }
        ensures { (name : List ℕ) (before : List Event) → Stands name self.old before
            → Delivers name before entry.now (seen (K.given sink.old) (K.faults sink.old) steps.old) (seen (K.given sink.new) (K.faults sink.new) steps.new) self.new result }
    {
        match entry {
            Entry::NewLink => self.open(alloc, rt, sink, steps),
            Entry::Bytes { link, bytes } => {
                self.hear(alloc, rt, *link, bytes.as_slice(), sink, steps)
            }
            Entry::End { link } => self.end(alloc, rt, *link, sink, steps),
        }
    }

    /// The last line: the accepted updates, the triples, and the subscriptions that live.
    #[tactic(auto, unfolding(crate::specs::Output::last_line))]
    pub fn last_line(&self, alloc: Global) -> Result<Vec<u8>, NoMemory>
        ensures { IfOk result (λ line. line.items ≡ last_line self.now.core.space) }
    {
        let updates = self.core.updates();
        let triples = self.core.triples();
        let subscriptions = self.core.subscriptions();
        Ok(format!(in alloc; "= {updates} {triples} {subscriptions}\n")?.into_bytes())
    }

    // Opens the next link, if one may open.
    fn open<R: Threads + Sync, K: Sink, L: Ledger>(
        &mut self,
        alloc: Global,
        rt: &R,
        sink: &mut K,
        steps: &mut Steps<L>,
    ) -> Result<(), Fault>
        ensures { (name : List ℕ) (before : List Event) → Stands name self.old before
            → Delivers name before NewLink (seen (K.given sink.old) (K.faults sink.old) steps.old) (seen (K.given sink.new) (K.faults sink.new) steps.new) self.new result }
    {
        match act(alloc, rt, &mut self.core, Call::NewLink, None, sink, steps)? {
            Some(link) => {
                self.decoders.insert(link, Decoder::new(alloc))?;
                Ok(())
            }
            None => Ok(()),
        }
    }

    // Takes a delivery.
    fn hear<R: Threads + Sync, K: Sink, L: Ledger>(
        &mut self,
        alloc: Global,
        rt: &R,
        link: u32,
        bytes: &[u8],
        sink: &mut K,
        steps: &mut Steps<L>,
    ) -> Result<(), Fault>
        requires can { CanAnswer self.old (Delivery link bytes.now) }
        ensures { (name : List ℕ) (before : List Event) → Stands name self.old before
            → Delivers name before (Delivery link bytes.now) (seen (K.given sink.old) (K.faults sink.old) steps.old) (seen (K.given sink.new) (K.faults sink.new) steps.new) self.new result }
    {
        if runs(&self.core, link) {
            self.hear_open(alloc, rt, link, bytes, sink, steps)
        } else {
            write_closed(alloc, sink, link)
        }
    }

    // Takes a delivery on an open link.
    fn hear_open<R: Threads + Sync, K: Sink, L: Ledger>(
        &mut self,
        alloc: Global,
        rt: &R,
        link: u32,
        bytes: &[u8],
        sink: &mut K,
        steps: &mut Steps<L>,
    ) -> Result<(), Fault>
        requires can { CanAnswer self.old (Delivery link bytes.now) }
        requires runs { is_open (state_of self.old.core.space.links link) ≡ true }
        ensures { (name : List ℕ) (before : List Event) → Stands name self.old before
            → Delivers name before (Delivery link bytes.now) (seen (K.given sink.old) (K.faults sink.old) steps.old) (seen (K.given sink.new) (K.faults sink.new) steps.new) self.new result }
    {
        let mut decoder = self.decoders.remove(&link).unwrap();
        hear_all(
            alloc,
            rt,
            link,
            &mut self.core,
            &mut decoder,
            bytes,
            sink,
            steps,
        )?;
        if runs(&self.core, link) {
            self.decoders.insert(link, decoder)?;
            return Ok(());
        }
        Ok(())
    }

    // Ends the input of a link.
    fn end<R: Threads + Sync, K: Sink, L: Ledger>(
        &mut self,
        alloc: Global,
        rt: &R,
        link: u32,
        sink: &mut K,
        steps: &mut Steps<L>,
    ) -> Result<(), Fault>
        requires can { CanAnswer self.old (End link) }
        ensures { (name : List ℕ) (before : List Event) → Stands name self.old before
            → Delivers name before (End link) (seen (K.given sink.old) (K.faults sink.old) steps.old) (seen (K.given sink.new) (K.faults sink.new) steps.new) self.new result }
    {
        if runs(&self.core, link) {
            self.end_open(alloc, rt, link, sink, steps)
        } else {
            write_closed(alloc, sink, link)
        }
    }

    // Ends the input of an open link.
    fn end_open<R: Threads + Sync, K: Sink, L: Ledger>(
        &mut self,
        alloc: Global,
        rt: &R,
        link: u32,
        sink: &mut K,
        steps: &mut Steps<L>,
    ) -> Result<(), Fault>
        requires can { CanAnswer self.old (End link) }
        requires runs { is_open (state_of self.old.core.space.links link) ≡ true }
        ensures { (name : List ℕ) (before : List Event) → Stands name self.old before
            → Delivers name before (End link) (seen (K.given sink.old) (K.faults sink.old) steps.old) (seen (K.given sink.new) (K.faults sink.new) steps.new) self.new result }
    {
        let decoder = self.decoders.remove(&link).unwrap();
        let reason = end_of(link, decoder)?;
        act(
            alloc,
            rt,
            &mut self.core,
            Call::End(link),
            reason,
            sink,
            steps,
        )?;
        Ok(())
    }
}
