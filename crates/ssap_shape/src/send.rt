//! The messages that answer requests.
ghost use Rattle.std.specs.Prelude.{◌≡◌, IfOk};
ghost use Rattle.answer_bodies.specs.Writing.{IsFull};
ghost use Rattle.ssap_shape.specs.Replies.{heads_with, sent_param, status_param as param_of_status, number_param as param_of_number, answer_param as param_of_answer, changes_params_of, ended_params_of, confirm_of, indication_of, HasFullAnswer, HasFullAnswers};

use crate::name::Name;
use crate::words::{number_text, plain};
use crate::{Confirm, Indication, Status};
use answer_bodies::{Answer, Difference};
use m3_terms::NoMemory;
use ssap_items::{Body, Envelope, Heads, MessageType, Param, Params};
use std::alloc::Global;

/// The heads of a message, as those of another type.
pub fn copied_heads(heads: &Heads, message: MessageType) -> Result<Heads, NoMemory>
    ensures { IfOk result (λ copied. copied ≡ heads_with message heads.now) }
{
    Ok(Heads {
        message,
        transaction: heads.transaction,
        transaction_id: heads.transaction_id.copy()?,
        node_id: heads.node_id.copy()?,
        space_id: heads.space_id.copy()?,
    })
}

/// A parameter without an encoding.
pub fn param(alloc: Global, name: Name, body: Body) -> Result<Param, NoMemory>
    ensures { IfOk result (λ param. param ≡ sent_param name body) }
{
    Ok(Param {
        name: plain(alloc, name.as_bytes())?,
        encoding: None,
        body,
    })
}

fn status_param(alloc: Global, status: Status) -> Result<Param, NoMemory>
    ensures { IfOk result (λ param. param ≡ param_of_status status) }
{
    let text = plain(alloc, status.as_bytes())?;
    param(alloc, Name::Status, Body::Text(text))
}

fn number_param(alloc: Global, name: Name, number: u64) -> Result<Param, NoMemory>
    ensures { IfOk result (λ param. param ≡ param_of_number name number) }
{
    let text = number_text(alloc, number)?;
    param(alloc, name, Body::Text(text))
}

fn answer_param(alloc: Global, name: Name, answer: &Answer) -> Result<Param, NoMemory>
    requires { IsFull answer.now }
    ensures { IfOk result (λ param. param ≡ param_of_answer name answer.now) }
{
    let body = answer.to_body(alloc)?;
    param(alloc, name, body)
}

fn confirm_params(alloc: Global, confirm: &Confirm) -> Result<Params, NoMemory>
    requires { HasFullAnswer confirm.now.answer }
    ensures { IfOk result (λ params. params ≡ (confirm_of confirm.now).params) }
{
    let mut params = Params::new(alloc);
    params.push(status_param(alloc, confirm.status)?)?;
    if let Some(subscription) = confirm.subscription {
        params.push(number_param(alloc, Name::SubscriptionId, subscription)?)?;
    }
    if let Some(answer) = &confirm.answer {
        params.push(answer_param(alloc, Name::Results, answer)?)?;
    }
    Ok(params)
}

/// The message of a confirm: the heads of the request, the status, and the subscription's number and the results where
/// they are there. Each row of a table has one cell for each column.
pub fn confirm_envelope(alloc: Global, confirm: &Confirm) -> Result<Envelope, NoMemory>
    requires { HasFullAnswer confirm.now.answer }
    ensures { IfOk result (λ envelope. envelope ≡ confirm_of confirm.now) }
{
    let heads = copied_heads(&confirm.heads, MessageType::Confirm)?;
    let params = confirm_params(alloc, confirm)?;
    Ok(Envelope { heads, params })
}

fn changes_params(
    alloc: Global,
    subscription: u64,
    sequence: u64,
    difference: &Difference,
) -> Result<Params, NoMemory>
    requires added { IsFull difference.now.added }
    requires obsolete { IsFull difference.now.obsolete }
    ensures { IfOk result (λ params. params ≡ changes_params_of subscription sequence difference.now) }
{
    let mut params = Params::new(alloc);
    params.push(number_param(alloc, Name::SubscriptionId, subscription)?)?;
    params.push(number_param(alloc, Name::Sequence, sequence)?)?;
    params.push(answer_param(alloc, Name::NewResults, &difference.added)?)?;
    params.push(answer_param(alloc, Name::ObsoleteResults, &difference.obsolete)?)?;
    Ok(params)
}

fn ended_params(alloc: Global, subscription: u64, status: Status) -> Result<Params, NoMemory>
    ensures { IfOk result (λ params. params ≡ ended_params_of subscription status) }
{
    let mut params = Params::new(alloc);
    params.push(number_param(alloc, Name::SubscriptionId, subscription)?)?;
    params.push(status_param(alloc, status)?)?;
    Ok(params)
}

fn indication_params(alloc: Global, indication: &Indication) -> Result<Params, NoMemory>
    requires { HasFullAnswers indication.now }
    ensures { IfOk result (λ params. params ≡ (indication_of indication.now).params) }
{
    match indication {
        Indication::Changes {
            subscription,
            sequence,
            difference,
            ..
        } => changes_params(alloc, *subscription, *sequence, difference),
        Indication::Ended {
            subscription,
            status,
            ..
        } => ended_params(alloc, *subscription, *status),
    }
}

/// The message of an indication: the subscription's number, and either the number of the indication with the new and the
/// obsolete results, or the status with which the subscription ended. Each row of a table has one cell for each column.
pub fn indication_envelope(alloc: Global, indication: &Indication) -> Result<Envelope, NoMemory>
    requires { HasFullAnswers indication.now }
    ensures { IfOk result (λ envelope. envelope ≡ indication_of indication.now) }
{
    let heads = match indication {
        Indication::Changes { heads, .. } => copied_heads(heads, MessageType::Indication)?,
        Indication::Ended { heads, .. } => copied_heads(heads, MessageType::Indication)?,
    };
    let params = indication_params(alloc, indication)?;
    Ok(Envelope { heads, params })
}
