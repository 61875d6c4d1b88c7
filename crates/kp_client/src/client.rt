ghost use Rattle.std.specs.Prelude.{◌≡◌, ◌<◌, ◌^◌, ◌↔◌, None, Some, Err, IfOk, OnOk, OnErr};
ghost use Rattle.std.specs.Option.{IsSome};
ghost use Rattle.ssap_items.specs.declared.heads.Heads.{Heads as SeenHeads};
ghost use Rattle.ssap_shape.specs.Asking.{AskHasUris, MayAsk};
ghost use Rattle.ssap_shape.specs.declared.status.Status.{Status as SeenStatus};
ghost use Rattle.ssap_shape.specs.declared.reply.Incoming.TheVariants as incomings;
ghost use Rattle.kp_client.specs.Asked.{asked, asked_bytes, confirmed, Takes};
ghost use Rattle.kp_client.specs.Causes.{IsStray, IsRefusal};
ghost use Rattle.kp_client.specs.declared.fault.Awaited.{Awaited as Pending};
ghost use Rattle.kp_client.specs.declared.fault.ClientFault.TheVariants as fault;

use crate::waiting::Waiting;
use crate::{Awaited, ClientFault, Event};
use m3_terms::{Bytes, NoMemory, Text};
use ssap_encode::to_bytes;
use ssap_items::{Heads, Transaction};
use ssap_shape::{Ask, Confirm, Incoming, asking_envelope};
use std::alloc::Global;
use std::marker::Model;

/// A client of one space under one node: it makes a request, awaits its confirm, and passes on the indications that come
/// meanwhile. The transaction id of a request is its number in decimal, and the first one has the number 1.
#[derive(Debug, Drop)]
pub struct Client {
    space: Text,
    node: Text,
    made: u64,
    waiting: Option<Waiting>,
}

impl Model for Client {
    ghost use Rattle.kp_client.specs.Asked.{Asking};

    ghost Value = { Asking };

    ghost view = { λ c. record { space = c.space; node = c.node; made = c.made; awaited = c.waiting } };
}

fn told(confirm: Confirm) -> Result<Event, ClientFault>
    ensures { result ≡ confirmed confirm }
{
    let status = confirm.status;
    if status.is_success() {
        Ok(Event::Confirmed(confirm))
    } else {
        Err(ClientFault::Refused { status })
    }
}

impl Client {
    /// A client that made no request. It takes no memory.
    pub fn new(space: Text, node: Text) -> Client
        ensures { result ≡ record { space = space; node = node; made = 0; awaited = None } }
    {
        Client {
            space,
            node,
            made: 0,
            waiting: None,
        }
    }

    /// The confirm that the client awaits, or `None` where it may make a request.
    pub fn awaited(&self) -> Option<Awaited>
        ensures { result ≡ self.now.awaited }
    {
        match &self.waiting {
            Some(waiting) => Some(waiting.awaited()),
            None => None,
        }
    }

    /// The bytes of the next request, which asks for this, in their canonical spelling; from now on its confirm is awaited.
    /// After `NoMemory` the client is unchanged.
    pub fn request(
        &mut self,
        alloc: Global,
        ask: &Ask,
        transaction: Transaction,
    ) -> Result<Bytes, NoMemory>
        requires idle { self.old.awaited ≡ None }
        requires count { self.old.made < 2 ^ 63 }
        requires uris { AskHasUris ask.now }
        requires asks { MayAsk transaction ask.now }
        ensures bytes { IfOk result (λ bytes. bytes ≡ asked_bytes self.old transaction ask.now) }
        ensures asked { OnOk result (self.new ≡ asked self.old transaction) }
        ensures unchanged { OnErr result (self.new ≡ self.old) }
    {
        let waiting = Waiting::new(alloc, transaction, self.made + 1)?;
        let heads = waiting.heads(&self.space, &self.node)?;
        let envelope = asking_envelope(alloc, &heads, ask)?;
        let bytes = to_bytes(alloc, &envelope)?;
        self.made += 1;
        self.waiting = Some(waiting);
        Ok(bytes)
    }

    /// What the confirm that may be awaited tells.
    fn confirm(&mut self, confirm: Confirm) -> Result<Event, ClientFault>
        requires { IsSome self.old.awaited }
        ensures { (awaited : Pending) → self.old.awaited ≡ Some awaited → Takes self.old awaited (incomings.Confirm confirm) result self.new }
    {
        let Some(waiting) = &self.waiting else {
            unreachable!()
        };
        if !waiting.is_answered(&self.space, &self.node, &confirm.heads) {
            let want = waiting.awaited();
            let got = confirm.heads;
            return Err(ClientFault::Unexpected { want, got });
        }
        self.waiting = None;
        told(confirm)
    }

    /// That what came is unexpected.
    fn unexpected(&self, got: Heads) -> ClientFault
        requires { IsSome self.now.awaited }
        ensures { (awaited : Pending) → self.now.awaited ≡ Some awaited → result ≡ fault.Unexpected awaited got }
    {
        match &self.waiting {
            Some(waiting) => ClientFault::Unexpected {
                want: waiting.awaited(),
                got,
            },
            None => unreachable!(),
        }
    }

    /// Takes what came, as `take` does.
    fn take_in(&mut self, incoming: Incoming) -> Result<Event, ClientFault>
        requires { IsSome self.old.awaited }
        ensures { (awaited : Pending) → self.old.awaited ≡ Some awaited → Takes self.old awaited incoming result self.new }
    {
        match incoming {
            Incoming::Confirm(confirm) => self.confirm(confirm),
            Incoming::Indication(indication) => Ok(Event::Passed(indication)),
            Incoming::Other { heads } => Err(self.unexpected(heads)),
        }
    }

    /// Takes what came while a confirm is awaited. The awaited confirm ends the waiting: it is `Confirmed` where it states
    /// success, and `Refused` otherwise. An indication is `Passed`, whatever its node and its space. Anything else is
    /// `Unexpected`, and changes nothing. It takes no memory.
    pub fn take(&mut self, incoming: Incoming) -> Result<Event, ClientFault>
        requires awaits { IsSome self.old.awaited }
        ensures takes { (awaited : Pending) → self.old.awaited ≡ Some awaited → Takes self.old awaited incoming result self.new }
        ensures unexpected { (awaited : Pending) → self.old.awaited ≡ Some awaited → (want : Pending) (got : SeenHeads) → result ≡ Err (fault.Unexpected want got) → IsStray self.old awaited incoming }
        ensures refused { (awaited : Pending) → self.old.awaited ≡ Some awaited → (stated : SeenStatus) → (result ≡ Err (fault.Refused stated)) ↔ IsRefusal self.old awaited stated incoming }
    {
        self.take_in(incoming)
    }
}
