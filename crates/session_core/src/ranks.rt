//! What refuses a request, in the order in which it decides.
ghost use Rattle.std.specs.Prelude.{◌≡◌, ◌+◌, ◌≤◌, ◌<◌, ◌^◌, true, None, OnOk, OnErr};
ghost use Rattle.std.specs.List.{list_any};
ghost use Rattle.link_table.specs.Links.{is_open, state_of};
ghost use Rattle.ssap_shape.specs.declared.request.Arrived.TheVariants as arrived;
ghost use Rattle.session_core.specs.Space.{is_member};
ghost use Rattle.session_core.specs.Requests.{is_for as is_for_it, is_stranger as stranger, is_no_triple as no_triple, is_unfit as unfit, wrong_status as wrong, first_of, early_ranks};
ghost use Rattle.session_core.specs.Steps.{delivered};
ghost use Rattle.session_core.specs.Ranks.{asking, passed};
ghost use Rattle.session_core.specs.Reads.{ask_cost};

use crate::store::Store;
use m3_terms::{NoMemory, Pattern, Patterns, Slot, Steps, Term, Text};
use ssap_items::Heads;
use ssap_shape::{Ask, Request, Status};
use std::alloc::Global;
use std::sync::ledger::Ledger;

fn is_no_triple(pattern: &Pattern) -> bool
    ensures { result ≡ no_triple pattern.now }
{
    !matches!(
        (&pattern.subject, &pattern.predicate, &pattern.object),
        (Slot::Is(Term::Uri(_)), Slot::Is(Term::Uri(_)), Slot::Is(_))
    )
}

fn has_no_triple(patterns: &Patterns) -> bool
    ensures { result ≡ list_any no_triple patterns.now }
{
    patterns
        .as_slice()
        .iter()
        .any(|pattern| is_no_triple(pattern))
}

impl Store {
    fn is_for(&self, heads: &Heads) -> bool
        ensures { result ≡ is_for_it self.now heads.now }
    {
        heads.space_id.as_bytes() == self.name.as_bytes()
    }

    /// Whether a node is joined.
    pub fn is_joined(&self, node: &Text) -> bool
        ensures { result ≡ is_member self.now node.now }
    {
        self.joined.contains(node)
    }

    fn is_stranger(&self, heads: &Heads, ask: &Ask) -> bool
        ensures { result ≡ stranger self.now heads.now ask.now }
    {
        match ask {
            Ask::Join => false,
            Ask::Leave
            | Ask::Update { .. }
            | Ask::Query(_)
            | Ask::Subscribe(_)
            | Ask::Unsubscribe(_) => !self.is_joined(&heads.node_id),
        }
    }

    fn is_unfit(&self, heads: &Heads, ask: &Ask) -> bool
        ensures { result ≡ unfit self.now heads.now ask.now }
    {
        match ask {
            Ask::Update { insert, .. } => has_no_triple(insert),
            Ask::Unsubscribe(text) => !self.has_named(&heads.node_id, text),
            Ask::Join | Ask::Leave | Ask::Query(_) | Ask::Subscribe(_) => false,
        }
    }

    /// The status of a message that is wrong by itself, unless it is for another space.
    pub fn wrong_status(&self, heads: &Heads, status: Status) -> Status
        ensures { result ≡ wrong self.now heads.now status }
    {
        if self.is_for(heads) {
            status
        } else {
            Status::Request
        }
    }

    // The status of the first rank that refuses a request before its query text and its limits are looked at.
    fn refusal(&self, request: &Request) -> Option<Status>
        ensures { result ≡ first_of early_ranks self.now request.now }
    {
        if !self.is_for(&request.heads) {
            Some(Status::Request)
        } else if self.is_stranger(&request.heads, &request.ask) {
            Some(Status::AccessDenied)
        } else if self.is_unfit(&request.heads, &request.ask) {
            Some(Status::Request)
        } else {
            None
        }
    }

    /// Does a request and sends its confirm.
    pub fn request<L: Ledger>(
        &mut self,
        alloc: Global,
        link: u32,
        request: Request,
        steps: &mut Steps<L>,
    ) -> Result<(), NoMemory>
        requires updates { self.old.updates < 2 ^ 62 }
        requires numbers { self.old.numbered < 2 ^ 62 }
        requires open { is_open (state_of self.old.links link) ≡ true }
        ensures space { OnOk result (self.new ≡ delivered self.old link (arrived.Request request)) }
        ensures err { OnErr result (self.new ≡ self.old) }
        ensures cost { steps.new ≤ steps.old + ask_cost self.old request.ask }
    {
        match self.refusal(&request) {
            Some(status) => self.answer(alloc, link, request.heads, status),
            None => self.pass(alloc, link, request.heads, request.ask, steps),
        }
    }

    // Does a request that only its query text or its limits may refuse.
    fn pass<L: Ledger>(
        &mut self,
        alloc: Global,
        link: u32,
        heads: Heads,
        ask: Ask,
        steps: &mut Steps<L>,
    ) -> Result<(), NoMemory>
        requires passes { first_of early_ranks self.old (asking heads ask) ≡ None }
        requires updates { self.old.updates < 2 ^ 62 }
        requires numbers { self.old.numbered < 2 ^ 62 }
        requires open { is_open (state_of self.old.links link) ≡ true }
        ensures space { OnOk result (self.new ≡ passed self.old link heads ask) }
        ensures err { OnErr result (self.new ≡ self.old) }
        ensures cost { steps.new ≤ steps.old + ask_cost self.old ask }
    {
        match ask {
            Ask::Join => self.join(alloc, link, heads),
            Ask::Leave => self.leave(alloc, link, heads),
            Ask::Update {
                remove,
                insert,
                confirm,
            } => self.update(alloc, link, heads, &remove, &insert, confirm, steps),
            Ask::Query(wish) => self.query(alloc, link, heads, &wish, steps),
            Ask::Subscribe(wish) => self.subscribe(alloc, link, heads, wish, steps),
            Ask::Unsubscribe(text) => self.unsubscribe(alloc, link, heads, &text),
        }
    }
}
