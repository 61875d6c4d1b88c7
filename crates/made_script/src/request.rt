//! The requests, each as the bytes of its message.
ghost use Rattle.std.specs.Prelude.{◌≡◌, ◌∷◌, [], ◌+◌, ◌-◌, ◌≤◌, ◌<◌, ◌^◌, IfOk};
ghost use Rattle.ssap_items.specs.Canon.{canonical};
ghost use Rattle.ssap_items.specs.declared.heads.Transaction.TheVariants as kind;
ghost use Rattle.ssap_shape.specs.Asking.{request_of, AskHasUris, MayAsk};
ghost use Rattle.ssap_shape.specs.declared.request.Ask.TheVariants as asks;
ghost use Rattle.made_script.specs.Made.{with_predicate as pattern_of_predicate, with_subject as pattern_of_subject, one_triple as pattern_of_triple, wish_at, update_at, made_heads, made_request, message_at};

use crate::texts::{made_space, node, object, optional_text, predicate, subject};
use m3_terms::{Bytes, NoMemory, Pattern, Patterns, Slot};
use ssap_encode::to_bytes;
use ssap_items::{Heads, MessageType, Transaction};
use ssap_shape::{Ask, Wish, asking_envelope, number_text};
use std::alloc::Global;

fn with_predicate(alloc: Global, number: u64) -> Result<Pattern, NoMemory>
    ensures { IfOk result (λ pattern. pattern ≡ pattern_of_predicate number) }
{
    Ok(Pattern {
        subject: Slot::Any,
        predicate: Slot::Is(predicate(alloc, number)?),
        object: Slot::Any,
    })
}

fn with_subject(alloc: Global, number: u64) -> Result<Pattern, NoMemory>
    ensures { IfOk result (λ pattern. pattern ≡ pattern_of_subject number) }
{
    Ok(Pattern {
        subject: Slot::Is(subject(alloc, number)?),
        predicate: Slot::Any,
        object: Slot::Any,
    })
}

fn one_triple(alloc: Global, number: u64) -> Result<Pattern, NoMemory>
    ensures { IfOk result (λ pattern. pattern ≡ pattern_of_triple number) }
{
    Ok(Pattern {
        subject: Slot::Is(subject(alloc, number)?),
        predicate: Slot::Is(predicate(alloc, number)?),
        object: Slot::Is(object(alloc, number)?),
    })
}

/// A list of one template.
fn alone(alloc: Global, template: Pattern) -> Result<Patterns, NoMemory>
    ensures { IfOk result (λ templates. templates ≡ template ∷ []) }
{
    let mut templates = Patterns::new(alloc);
    templates.push(template)?;
    Ok(templates)
}

/// What a subscription wishes for, counted from 0.
fn wish(alloc: Global, number: u64) -> Result<Wish, NoMemory>
    requires { number < 50 }
    ensures { IfOk result (λ wish. wish ≡ wish_at number) }
{
    if number % 2 == 0 {
        let template = with_predicate(alloc, number)?;
        return Ok(Wish::Templates(alone(alloc, template)?));
    }
    Ok(Wish::Sparql(optional_text(alloc, number)?))
}

/// What an update asks for, counted from 0.
fn update(alloc: Global, number: u64) -> Result<Ask, NoMemory>
    requires { number + 20 < 2 ^ 64 }
    ensures { IfOk result (λ ask. ask ≡ update_at number) }
{
    let removed = with_subject(alloc, number + 20)?;
    let remove = alone(alloc, removed)?;
    let inserted = one_triple(alloc, number)?;
    let insert = alone(alloc, inserted)?;
    Ok(Ask::Update {
        remove,
        insert,
        confirm: true,
    })
}

fn heads(alloc: Global, transaction: Transaction, position: u64) -> Result<Heads, NoMemory>
    ensures { IfOk result (λ heads. heads ≡ made_heads transaction position) }
{
    Ok(Heads {
        message: MessageType::Request,
        transaction,
        transaction_id: number_text(alloc, position)?,
        node_id: node(alloc)?,
        space_id: made_space(alloc)?,
    })
}

/// The message of a request that asks for this.
fn asked(
    alloc: Global,
    transaction: Transaction,
    position: u64,
    ask: &Ask,
) -> Result<Bytes, NoMemory>
    requires uris { AskHasUris ask.now }
    requires asks { MayAsk transaction ask.now }
    ensures bytes { IfOk result (λ bytes. bytes ≡ canonical (request_of (made_request transaction position ask.now))) }
{
    let heads = heads(alloc, transaction, position)?;
    let envelope = asking_envelope(alloc, &heads, ask)?;
    to_bytes(alloc, &envelope)
}

/// The message of a SUBSCRIBE.
fn subscription(alloc: Global, position: u64) -> Result<Bytes, NoMemory>
    requires { (2 ≤ position) × (position < 52) }
    ensures { IfOk result (λ bytes. bytes ≡ canonical (request_of (made_request kind.Subscribe position (asks.Subscribe (wish_at (position - 2)))))) }
{
    let ask = Ask::Subscribe(wish(alloc, position - 2)?);
    asked(alloc, Transaction::Subscribe, position, &ask)
}

/// The message of an UPDATE.
fn change(alloc: Global, position: u64) -> Result<Bytes, NoMemory>
    requires { 52 ≤ position }
    ensures { IfOk result (λ bytes. bytes ≡ canonical (request_of (made_request kind.Update position (update_at (position - 52))))) }
{
    let ask = update(alloc, position - 52)?;
    asked(alloc, Transaction::Update, position, &ask)
}

/// The message at a position behind the first.
#[tactic(auto, unfolding(crate::specs::Made::message_at))]
pub fn message(alloc: Global, position: u64) -> Result<Bytes, NoMemory>
    ensures { IfOk result (λ bytes. bytes ≡ message_at position) }
{
    if position < 2 {
        return asked(alloc, Transaction::Join, position, &Ask::Join);
    }
    if position < 52 {
        return subscription(alloc, position);
    }
    change(alloc, position)
}
