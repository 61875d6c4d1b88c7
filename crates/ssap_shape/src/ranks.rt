//! The faults of a message, in their order. The first one decides.
ghost use Rattle.std.specs.Prelude.{◌≡◌, MatchOption};
ghost use Rattle.ssap_shape.specs.Ranks.{is_asking as asking, is_bad_id as bad_id, is_no_request as no_request, is_doubled as doubled, is_wrong_number as wrong_number, is_misfilled as misfilled, is_wrong_param as wrong_param, is_wrong as wrong, has_terms as has_terms_in, asks_unbuilt as unbuilt_in, is_unbuilt as unbuilt, asks_too_much as too_much_in, is_too_much as too_much};
ghost use Rattle.ssap_shape.specs.Shape.{IsRefused, Passes};

use crate::Status;
use crate::name::{Name, is_named};
use crate::query::{is_other_type, is_wide_query, is_wrong_query, is_wrong_type};
use crate::table::{is_incomplete, is_known};
use crate::templates::{has_bnodes, has_long_terms, is_text};
use crate::update::{is_foreign, is_graph_named, is_wrong_flag, is_wrong_graph};
use m3_terms::Text;
use ssap_items::{Envelope, Heads, MessageType, Param, Params, Transaction};

/// The most bytes that an identifier may have.
const ID_LIMIT: usize = 1024;

fn is_bad_id(text: &Text) -> bool
    ensures { result ≡ bad_id text.now }
{
    text.as_bytes().is_empty() || text.len() > ID_LIMIT
}

fn is_asking(message: MessageType) -> bool
    ensures { result ≡ asking message }
{
    matches!(message, MessageType::Request)
}

/// Whether the message is no request that can be answered.
pub fn is_no_request(heads: &Heads) -> bool
    ensures { result ≡ no_request heads.now }
{
    !is_asking(heads.message)
        || is_bad_id(&heads.transaction_id)
        || is_bad_id(&heads.node_id)
        || is_bad_id(&heads.space_id)
}

fn is_doubled(params: &Params, param: &Param) -> bool
    ensures { result ≡ doubled params.now param.now }
{
    let name = param.name.as_bytes();
    let same = params
        .as_slice()
        .iter()
        .filter(|other| other.name.as_bytes() == name);
    same.count() > 1
}

fn is_wrong_number(param: &Param) -> bool
    ensures { result ≡ wrong_number param.now }
{
    is_named(param, Name::SubscriptionId) && !is_text(&param.body)
}

fn is_misfilled(params: &Params, param: &Param) -> bool
    ensures { result ≡ misfilled params.now param.now }
{
    is_wrong_graph(param)
        || is_wrong_flag(param)
        || is_wrong_type(param)
        || is_wrong_query(params, param)
        || is_wrong_number(param)
}

fn is_wrong_param(transaction: Transaction, params: &Params, param: &Param) -> bool
    ensures { result ≡ wrong_param transaction params.now param.now }
{
    !is_known(transaction, param) || is_doubled(params, param) || is_misfilled(params, param)
}

fn is_wrong(envelope: &Envelope) -> bool
    ensures { result ≡ wrong envelope.now }
{
    let transaction = envelope.heads.transaction;
    let params = &envelope.params;
    params
        .as_slice()
        .iter()
        .any(|param| is_wrong_param(transaction, params, param))
}

fn has_terms(param: &Param) -> bool
    ensures { result ≡ has_terms_in param.now }
{
    is_graph_named(param) || is_named(param, Name::Query)
}

fn asks_unbuilt(param: &Param) -> bool
    ensures { result ≡ unbuilt_in param.now }
{
    (is_graph_named(param) && is_foreign(param))
        || is_other_type(param)
        || (has_terms(param) && has_bnodes(&param.body))
}

fn is_unbuilt(envelope: &Envelope) -> bool
    ensures { result ≡ unbuilt envelope.now }
{
    envelope.params.as_slice().iter().any(asks_unbuilt)
}

fn asks_too_much(param: &Param) -> bool
    ensures { result ≡ too_much_in param.now }
{
    (has_terms(param) && has_long_terms(&param.body)) || is_wide_query(param)
}

fn is_too_much(envelope: &Envelope) -> bool
    ensures { result ≡ too_much envelope.now }
{
    envelope.params.as_slice().iter().any(asks_too_much)
}

/// The status of the first fault among the parameters. None where there is none.
pub fn refusal(envelope: &Envelope) -> Option<Status>
    ensures { MatchOption result (Passes envelope.now) (IsRefused envelope.now) }
{
    if is_incomplete(envelope) {
        Some(Status::Incomplete)
    } else if is_wrong(envelope) {
        Some(Status::Syntax)
    } else if is_unbuilt(envelope) {
        Some(Status::NotImplemented)
    } else if is_too_much(envelope) {
        Some(Status::OutOfResources)
    } else {
        None
    }
}
