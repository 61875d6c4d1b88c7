//! What a message from a broker tells a client.
ghost use Rattle.std.specs.Prelude.{◌≡◌, ◌&&◌, ◌^◌, ◌<◌, ℕ, true, IfOk, MatchOption};
ghost use Rattle.answer_bodies.specs.Reading.{IsReadAs};
ghost use Rattle.ssap_shape.specs.Told.{IsNumber, IsStatus, StandsOnce, is_success as success, has_number as numbered, has_results as answered, IsConfirm, IsIndication, IsTold};
ghost use Rattle.ssap_shape.specs.Fields.{IsPart};

use crate::fields::{self, Field};
use crate::name::Name;
use crate::send::copied_heads;
use crate::{Confirm, Incoming, Indication, Status};
use answer_bodies::{Answer, Difference};
use m3_terms::NoMemory;
use ssap_items::{Envelope, MessageType, Params, Transaction};
use std::alloc::Global;

fn has_number(transaction: Transaction) -> bool
    ensures { result ≡ numbered transaction }
{
    match transaction {
        Transaction::Subscribe => true,
        Transaction::Join
        | Transaction::Leave
        | Transaction::Insert
        | Transaction::Remove
        | Transaction::Update
        | Transaction::Query
        | Transaction::Unsubscribe => false,
    }
}

fn has_results(transaction: Transaction) -> bool
    ensures { result ≡ answered transaction }
{
    match transaction {
        Transaction::Query | Transaction::Subscribe => true,
        Transaction::Join
        | Transaction::Leave
        | Transaction::Insert
        | Transaction::Remove
        | Transaction::Update
        | Transaction::Unsubscribe => false,
    }
}

/// Whether a confirm of this transaction with this status is sent with the number of a subscription.
fn lists_number(status: Status, transaction: Transaction) -> bool
    ensures { result ≡ (success status && numbered transaction) }
{
    status.is_success() && has_number(transaction)
}

/// Whether it is sent with results.
fn lists_results(status: Status, transaction: Transaction) -> bool
    ensures { result ≡ (success status && answered transaction) }
{
    status.is_success() && has_results(transaction)
}

/// The number of a subscription that a confirm tells, where it is looked at: none where it is missing, and nothing at all where
/// it can't be read.
fn number_part(
    alloc: Global,
    status: Status,
    envelope: &Envelope,
) -> Result<Option<Option<u64>>, NoMemory>
    ensures { IfOk result (IsPart (success status && numbered envelope.now.heads.transaction) IsNumber envelope.now.params Name.SubscriptionId) }
{
    if !lists_number(status, envelope.heads.transaction) {
        return Ok(Some(None));
    }
    match fields::number(alloc, &envelope.params, Name::SubscriptionId)? {
        Field::Missing => Ok(Some(None)),
        Field::Value(number) => Ok(Some(Some(number))),
        Field::Wrong => Ok(None),
    }
}

/// The answer that a confirm tells, where it is looked at: none where it is missing, and nothing at all where it can't be read.
fn answer_part(
    alloc: Global,
    status: Status,
    envelope: &Envelope,
) -> Result<Option<Option<Answer>>, NoMemory>
    ensures { IfOk result (IsPart (success status && answered envelope.now.heads.transaction) IsReadAs envelope.now.params Name.Results) }
{
    if !lists_results(status, envelope.heads.transaction) {
        return Ok(Some(None));
    }
    match fields::answer(alloc, &envelope.params, Name::Results)? {
        Field::Missing => Ok(Some(None)),
        Field::Value(answer) => Ok(Some(Some(answer))),
        Field::Wrong => Ok(None),
    }
}

/// The confirm that a message of this type tells, if it tells one.
fn confirm(alloc: Global, envelope: &Envelope) -> Result<Option<Confirm>, NoMemory>
    requires { envelope.now.heads.message ≡ MessageType.Confirm }
    ensures { IfOk result (λ told. MatchOption told ((confirm : Confirm) → ¬ (IsConfirm envelope.now confirm)) (IsConfirm envelope.now)) }
{
    let Some(status) = fields::status(&envelope.params) else {
        return Ok(None);
    };
    let Some(subscription) = number_part(alloc, status, envelope)? else {
        return Ok(None);
    };
    let Some(answer) = answer_part(alloc, status, envelope)? else {
        return Ok(None);
    };
    let heads = copied_heads(&envelope.heads, MessageType::Confirm)?;
    Ok(Some(Confirm {
        heads,
        status,
        subscription,
        answer,
    }))
}

/// Both sides of a difference, if both can be read.
fn difference(alloc: Global, params: &Params) -> Result<Option<Difference>, NoMemory>
    ensures { IfOk result (λ read. MatchOption read
        ((difference : Difference) → ¬ (StandsOnce IsReadAs params.now Name.NewResults difference.added × StandsOnce IsReadAs params.now Name.ObsoleteResults difference.obsolete))
        (λ difference. StandsOnce IsReadAs params.now Name.NewResults difference.added × StandsOnce IsReadAs params.now Name.ObsoleteResults difference.obsolete)) }
{
    let Some(added) = fields::once_answer(alloc, params, Name::NewResults)? else {
        return Ok(None);
    };
    match fields::once_answer(alloc, params, Name::ObsoleteResults)? {
        Some(obsolete) => Ok(Some(Difference { added, obsolete })),
        None => Ok(None),
    }
}

/// The changes that an indication of SUBSCRIBE tells, if it tells any.
fn changes(alloc: Global, envelope: &Envelope) -> Result<Option<Indication>, NoMemory>
    requires kind { envelope.now.heads.message ≡ MessageType.Indication }
    requires transaction { envelope.now.heads.transaction ≡ Transaction.Subscribe }
    ensures { IfOk result (λ told. MatchOption told ((indication : Indication) → ¬ (IsIndication envelope.now indication)) (IsIndication envelope.now)) }
{
    let params = &envelope.params;
    let Some(subscription) = fields::once_number(alloc, params, Name::SubscriptionId)? else {
        return Ok(None);
    };
    let Some(sequence) = fields::once_number(alloc, params, Name::Sequence)? else {
        return Ok(None);
    };
    let Some(difference) = difference(alloc, params)? else {
        return Ok(None);
    };
    let heads = copied_heads(&envelope.heads, MessageType::Indication)?;
    Ok(Some(Indication::Changes {
        heads,
        subscription,
        sequence,
        difference,
    }))
}

/// The end that an indication of UNSUBSCRIBE tells, if it tells one.
fn end(alloc: Global, envelope: &Envelope) -> Result<Option<Indication>, NoMemory>
    requires kind { envelope.now.heads.message ≡ MessageType.Indication }
    requires transaction { envelope.now.heads.transaction ≡ Transaction.Unsubscribe }
    ensures { IfOk result (λ told. MatchOption told ((indication : Indication) → ¬ (IsIndication envelope.now indication)) (IsIndication envelope.now)) }
{
    let params = &envelope.params;
    let Some(subscription) = fields::once_number(alloc, params, Name::SubscriptionId)? else {
        return Ok(None);
    };
    let Some(status) = fields::status(params) else {
        return Ok(None);
    };
    let heads = copied_heads(&envelope.heads, MessageType::Indication)?;
    Ok(Some(Indication::Ended {
        heads,
        subscription,
        status,
    }))
}

/// The indication that a message of this type tells, if it tells one.
fn indication(alloc: Global, envelope: &Envelope) -> Result<Option<Indication>, NoMemory>
    requires { envelope.now.heads.message ≡ MessageType.Indication }
    ensures { IfOk result (λ told. MatchOption told ((indication : Indication) → ¬ (IsIndication envelope.now indication)) (IsIndication envelope.now)) }
{
    match envelope.heads.transaction {
        Transaction::Subscribe => changes(alloc, envelope),
        Transaction::Unsubscribe => end(alloc, envelope),
        Transaction::Join
        | Transaction::Leave
        | Transaction::Insert
        | Transaction::Remove
        | Transaction::Update
        | Transaction::Query => Ok(None),
    }
}

fn other(envelope: &Envelope) -> Result<Incoming, NoMemory>
    ensures { IfOk result (λ told. told ≡ Incoming.Other envelope.now.heads) }
{
    let heads = copied_heads(&envelope.heads, envelope.heads.message)?;
    Ok(Incoming::Other { heads })
}

/// What a message from a broker tells a client. It is a confirm where its type is CONFIRM and its status stands once and is
/// one of the texts of statuses; where a confirm of QUERY or SUBSCRIBE with success lacks its results or its number, these are
/// `None`. It is an indication where its type is INDICATION and each of its parameters stands once and can be read: numbers are
/// of at most 64 bits, in decimal and without a leading zero. Parameters that such a message isn't sent with are not looked at.
/// Every other message, among them one with a doubled parameter or with results that are no answer, is `Other`.
pub fn client_shape(alloc: Global, envelope: &Envelope) -> Result<Incoming, NoMemory>
    ensures { IfOk result (IsTold envelope.now) }
{
    match envelope.heads.message {
        MessageType::Confirm => match confirm(alloc, envelope)? {
            Some(confirm) => Ok(Incoming::Confirm(confirm)),
            None => other(envelope),
        },
        MessageType::Indication => match indication(alloc, envelope)? {
            Some(indication) => Ok(Incoming::Indication(indication)),
            None => other(envelope),
        },
        MessageType::Request => other(envelope),
    }
}
