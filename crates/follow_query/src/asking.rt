//! Requests, and the confirms that answer them.
ghost use Rattle.std.specs.Prelude.{◌≡◌, ◌<◌, ◌^◌, None, IfOk, OnOk, MatchOption};
ghost use Rattle.std.specs.Option.{IsSome};
ghost use Rattle.kp_client.specs.Asked.{asked, idle};
ghost use Rattle.ssap_shape.specs.Asking.{AskHasUris, MayAsk};
ghost use Rattle.ssap_shape.specs.Sendable.{IsSoundConfirm, IsSoundIncoming};

use crate::fault::Fault;
use crate::link::Link;
use kp_client::{Client, Event, Mirror};
use sib_io::{Sink, Source};
use ssap_items::Transaction;
use ssap_shape::{Ask, Confirm, Incoming, Wish};
use std::alloc::Global;

/// Makes a request, and waits for its confirm. Each request stands on a line of its own.
pub fn ask<S: Source + Drop, K: Sink>(
    alloc: Global,
    client: &mut Client,
    link: &mut Link<S>,
    sink: &mut K,
    ask: &Ask,
    transaction: Transaction,
) -> Result<Confirm, Fault>
    requires idle { client.old.awaited ≡ None }
    requires count { client.old.made < 2 ^ 63 }
    requires uris { AskHasUris ask.now }
    requires asks { MayAsk transaction ask.now }
    ensures asked { OnOk result (client.new ≡ idle (asked client.old transaction)) }
    ensures sound { IfOk result IsSoundConfirm }
{
    let bytes = client.request(alloc, ask, transaction)?;
    sink.write_all(bytes.as_slice())?;
    sink.write_all(b"\n")?;
    sink.flush()?;
    confirmed(alloc, client, link)
}

// Waits for the confirm. What comes before it is of no subscription of this client.
fn confirmed<S: Source + Drop>(
    alloc: Global,
    client: &mut Client,
    link: &mut Link<S>,
) -> Result<Confirm, Fault>
    requires awaits { IsSome client.old.awaited }
    ensures idle { OnOk result (client.new ≡ idle client.old) }
    ensures sound { IfOk result IsSoundConfirm }
{
    for _ in 0..u64::MAX {
        if let Some(confirm) = hear(alloc, client, link)? {
            return Ok(confirm);
        }
    }
    Err(Fault::Over)
}

// Takes one message, and answers the confirm if it is the one.
fn hear<S: Source + Drop>(
    alloc: Global,
    client: &mut Client,
    link: &mut Link<S>,
) -> Result<Option<Confirm>, Fault>
    requires awaits { IsSome client.old.awaited }
    ensures { IfOk result (λ told. MatchOption told (client.new ≡ client.old) (λ confirm. (client.new ≡ idle client.old) × IsSoundConfirm confirm)) }
{
    match link.next(alloc)? {
        Some(incoming) => taken(client, incoming),
        None => Err(Fault::Over),
    }
}

// What the client says of a message: the confirm, or nothing of an indication.
fn taken(client: &mut Client, incoming: Incoming) -> Result<Option<Confirm>, Fault>
    requires awaits { IsSome client.old.awaited }
    requires sound { IsSoundIncoming incoming }
    ensures { IfOk result (λ told. MatchOption told (client.new ≡ client.old) (λ confirm. (client.new ≡ idle client.old) × IsSoundConfirm confirm)) }
{
    match client.take(incoming) {
        Ok(Event::Confirmed(confirm)) => Ok(Some(confirm)),
        Ok(Event::Passed(_)) => Ok(None),
        Err(fault) => Err(Fault::Client(fault)),
    }
}

/// Subscribes to a query, and begins a mirror with its first answer.
pub fn subscribe<S: Source + Drop, K: Sink>(
    alloc: Global,
    client: &mut Client,
    link: &mut Link<S>,
    sink: &mut K,
    query: Wish,
) -> Result<Mirror, Fault>
    requires idle { client.old.awaited ≡ None }
    requires count { client.old.made < 2 ^ 63 }
    requires uris { AskHasUris (Ask.Subscribe query) }
{
    let wish = Ask::Subscribe(query);
    let confirm = ask(alloc, client, link, sink, &wish, Transaction::Subscribe)?;
    let Confirm {
        heads: _,
        status: _,
        subscription,
        answer,
    } = confirm;
    match (subscription, answer) {
        (Some(number), Some(answer)) => Ok(Mirror::start(number, answer)),
        (None, _) => Err(Fault::Stray),
        (_, None) => Err(Fault::Stray),
    }
}
