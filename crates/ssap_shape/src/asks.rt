//! What a request asks for.
ghost use Rattle.std.specs.Prelude.{◌≡◌, ◌⊎◌, IfOk, List, ℕ, false};
ghost use Rattle.std.specs.List.{list_any};
ghost use Rattle.ssap_shape.specs.Templates.{has_bnode};
ghost use Rattle.ssap_shape.specs.Ranks.{asks_unbuilt};
ghost use Rattle.ssap_shape.specs.Table.{given as given_by};
ghost use Rattle.ssap_shape.specs.Shape.{triples_of, AreTemplatesOf, IsTextOf, IsWish, AsksFor, Passes};

use crate::name::{Name, given};
use crate::query::{Language, asked_language};
use crate::templates::templates;
use crate::update::is_wanted;
use crate::{Ask, Wish};
use m3_terms::{NoMemory, Patterns, Text};
use ssap_items::{Body, Envelope, Params, Transaction};
use std::alloc::Global;

fn given_templates(alloc: Global, params: &Params, name: Name) -> Result<Patterns, NoMemory>
    requires { list_any has_bnode (triples_of (given_by params.now name)) ≡ false }
    ensures { IfOk result (AreTemplatesOf (given_by params.now name)) }
{
    match given(params, name) {
        Some(param) => templates(alloc, &param.body),
        None => Ok(Patterns::new(alloc)),
    }
}

fn given_text(params: &Params, name: Name) -> Result<Text, NoMemory>
    requires { (text : List ℕ) × IsTextOf (given_by params.now name) text }
    ensures { IfOk result (IsTextOf (given_by params.now name)) }
{
    match given(params, name) {
        Some(param) => match &param.body {
            Body::Text(text) => text.copy(),
            Body::Triples(_) | Body::Table(_) => unreachable!(),
        },
        None => unreachable!(),
    }
}

fn update(alloc: Global, params: &Params) -> Result<Ask, NoMemory>
    requires { list_any asks_unbuilt params.now ≡ false }
    ensures { IfOk result (AsksFor Transaction.Update params.now) }
{
    Ok(Ask::Update {
        remove: given_templates(alloc, params, Name::RemoveGraph)?,
        insert: given_templates(alloc, params, Name::InsertGraph)?,
        confirm: is_wanted(params),
    })
}

fn wish(alloc: Global, envelope: &Envelope) -> Result<Wish, NoMemory>
    requires passes { Passes envelope.now }
    requires asks { (envelope.now.heads.transaction ≡ Transaction.Query) ⊎ (envelope.now.heads.transaction ≡ Transaction.Subscribe) }
    ensures { IfOk result (IsWish envelope.now.params) }
{
    let params = &envelope.params;
    match asked_language(params) {
        Language::Templates => Ok(Wish::Templates(given_templates(alloc, params, Name::Query)?)),
        Language::Sparql => Ok(Wish::Sparql(given_text(params, Name::Query)?)),
        Language::Other => unreachable!(),
    }
}

/// What the request asks for, where no rank refuses it.
pub fn ask(alloc: Global, envelope: &Envelope) -> Result<Ask, NoMemory>
    requires { Passes envelope.now }
    ensures { IfOk result (AsksFor envelope.now.heads.transaction envelope.now.params) }
{
    let params = &envelope.params;
    match envelope.heads.transaction {
        Transaction::Join => Ok(Ask::Join),
        Transaction::Leave => Ok(Ask::Leave),
        Transaction::Insert | Transaction::Remove | Transaction::Update => update(alloc, params),
        Transaction::Query => Ok(Ask::Query(wish(alloc, envelope)?)),
        Transaction::Subscribe => Ok(Ask::Subscribe(wish(alloc, envelope)?)),
        Transaction::Unsubscribe => Ok(Ask::Unsubscribe(given_text(params, Name::SubscriptionId)?)),
    }
}
