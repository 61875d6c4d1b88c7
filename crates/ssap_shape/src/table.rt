//! Which parameters the requests of each transaction have.
ghost use Rattle.std.specs.Prelude.{◌≡◌};
ghost use Rattle.std.specs.List.{list_any};
ghost use Rattle.ssap_shape.specs.Table.{is_named as is_name_of, required as required_by, optional as optional_by, is_known as knows};
ghost use Rattle.ssap_shape.specs.Ranks.{is_incomplete as incomplete};

use crate::name::{Name, has, is_named};
use ssap_items::{Envelope, Param, Transaction};

/// The parameters that a request must have.
fn required(transaction: Transaction) -> &'static [Name]
    ensures { result.now ≡ required_by transaction }
{
    match transaction {
        Transaction::Join | Transaction::Leave => &[],
        Transaction::Insert => &[Name::InsertGraph],
        Transaction::Remove => &[Name::RemoveGraph],
        Transaction::Update => &[Name::InsertGraph, Name::RemoveGraph],
        Transaction::Query | Transaction::Subscribe => &[Name::QueryType, Name::Query],
        Transaction::Unsubscribe => &[Name::SubscriptionId],
    }
}

/// The parameters that a request may have beside them.
fn optional(transaction: Transaction) -> &'static [Name]
    ensures { result.now ≡ optional_by transaction }
{
    match transaction {
        Transaction::Join => &[Name::Credentials],
        Transaction::Insert | Transaction::Remove | Transaction::Update => &[Name::Confirm],
        Transaction::Leave
        | Transaction::Query
        | Transaction::Subscribe
        | Transaction::Unsubscribe => &[],
    }
}

fn is_among(names: &[Name], param: &Param) -> bool
    ensures { result ≡ list_any (λ name. is_name_of name param.now) names.now }
{
    names.iter().any(|name| is_named(param, *name))
}

/// Whether a request of this transaction has or may have the parameter.
pub fn is_known(transaction: Transaction, param: &Param) -> bool
    ensures { result ≡ knows transaction param.now }
{
    is_among(required(transaction), param) || is_among(optional(transaction), param)
}

/// Whether the request lacks a parameter that it must have.
pub fn is_incomplete(envelope: &Envelope) -> bool
    ensures { result ≡ incomplete envelope.now }
{
    let params = &envelope.params;
    required(envelope.heads.transaction)
        .iter()
        .any(|name| !has(params, *name))
}
