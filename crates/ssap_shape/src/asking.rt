//! The messages that ask.
ghost use Rattle.std.specs.Prelude.{◌≡◌, map, IfOk};
ghost use Rattle.answer_bodies.specs.Writing.{raw_term};
ghost use Rattle.ssap_shape.specs.Asking.{templates_word, sparql_word, unwanted_word, wildcard_word, slot_term as term_of_slot, template_triple, templates_body as body_of_templates, graph_param as param_of_graph, graph_params as params_of_graphs, flag_params as params_of_flag, wish_params as params_of_wish, ask_params as params_of_ask, request_of, MayAsk, AskHasUris};
ghost use Rattle.ssap_shape.specs.Words.{word_of, query_param_of};
ghost use Rattle.ssap_shape.specs.Replies.{sent_param};

use crate::name::Name;
use crate::send::{copied_heads, param};
use crate::words::plain;
use crate::{Ask, Request, Wish};
use m3_terms::{NoMemory, Pattern, Patterns, Slot, Term, Text};
use ssap_items::{
    Body, Envelope, Heads, Kind, MessageType, Param, Params, RawTerm, RawTriple, RawTriples,
    Transaction,
};
use std::alloc::Global;

/// The words of a request that are neither names nor numbers.
#[derive(Clone, Copy)]
enum Word {
    Templates,
    Sparql,
    Unwanted,
    Wildcard,
}

impl Word {
    #[tactic(auto, unfolding(crate::specs::Asking::templates_word, crate::specs::Asking::sparql_word, crate::specs::Asking::unwanted_word, crate::specs::Asking::wildcard_word))]
    fn as_bytes(self) -> &'static [u8]
        ensures { result.now ≡ word_of self }
    {
        match self {
            Word::Templates => b"RDF-M3",
            Word::Sparql => b"sparql",
            Word::Unwanted => b"FALSE",
            Word::Wildcard => b"sib:any",
        }
    }
}

fn word_text(alloc: Global, word: Word) -> Result<Text, NoMemory>
    ensures { IfOk result (λ text. text ≡ word_of word) }
{
    plain(alloc, word.as_bytes())
}

fn slot_term(alloc: Global, slot: &Slot) -> Result<RawTerm, NoMemory>
    ensures { IfOk result (λ term. term ≡ term_of_slot slot.now) }
{
    match slot {
        Slot::Any => Ok(RawTerm {
            kind: Kind::Uri,
            text: word_text(alloc, Word::Wildcard)?,
        }),
        Slot::Is(Term::Uri(text)) => Ok(RawTerm {
            kind: Kind::Uri,
            text: text.copy()?,
        }),
        Slot::Is(Term::Literal(text)) => Ok(RawTerm {
            kind: Kind::Literal,
            text: text.copy()?,
        }),
    }
}

fn triple(alloc: Global, template: &Pattern) -> Result<RawTriple, NoMemory>
    ensures { IfOk result (λ raw. raw ≡ template_triple template.now) }
{
    let subject = slot_term(alloc, &template.subject)?;
    let predicate = slot_term(alloc, &template.predicate)?;
    let object = slot_term(alloc, &template.object)?;
    Ok(RawTriple {
        subject,
        predicate: predicate.text,
        object,
    })
}

fn templates_body(alloc: Global, templates: &Patterns) -> Result<Body, NoMemory>
    ensures { IfOk result (λ body. body ≡ body_of_templates templates.now) }
{
    let mut triples = RawTriples::new(alloc);
    for template in templates.as_slice() {
        triples.push(triple(alloc, template)?)?;
    }
    Ok(Body::Triples(triples))
}

fn graph_param(alloc: Global, name: Name, templates: &Patterns) -> Result<Param, NoMemory>
    ensures { IfOk result (λ param. param ≡ param_of_graph name templates.now) }
{
    let body = templates_body(alloc, templates)?;
    let param = param(alloc, name, body)?;
    Ok(Param {
        name: param.name,
        encoding: Some(word_text(alloc, Word::Templates)?),
        body: param.body,
    })
}

fn word_param(alloc: Global, name: Name, word: Word) -> Result<Param, NoMemory>
    ensures { IfOk result (λ param. param ≡ sent_param name (Body.Text (word_of word))) }
{
    let text = word_text(alloc, word)?;
    param(alloc, name, Body::Text(text))
}

fn graph_params(
    alloc: Global,
    transaction: Transaction,
    remove: &Patterns,
    insert: &Patterns,
) -> Result<Params, NoMemory>
    ensures { IfOk result (λ params. params ≡ params_of_graphs transaction remove.now insert.now) }
{
    let mut params = Params::new(alloc);
    if matches!(transaction, Transaction::Insert | Transaction::Update) {
        params.push(graph_param(alloc, Name::InsertGraph, insert)?)?;
    }
    if matches!(transaction, Transaction::Remove | Transaction::Update) {
        params.push(graph_param(alloc, Name::RemoveGraph, remove)?)?;
    }
    Ok(params)
}

fn update_params(
    alloc: Global,
    transaction: Transaction,
    remove: &Patterns,
    insert: &Patterns,
    confirm: bool,
) -> Result<Params, NoMemory>
    ensures { IfOk result (λ params. params ≡ params_of_ask transaction (Ask.Update remove.now insert.now confirm)) }
{
    let mut params = graph_params(alloc, transaction, remove, insert)?;
    if !confirm {
        params.push(word_param(alloc, Name::Confirm, Word::Unwanted)?)?;
    }
    Ok(params)
}

fn query_param(alloc: Global, wish: &Wish) -> Result<Param, NoMemory>
    ensures { IfOk result (λ param. param ≡ query_param_of wish.now) }
{
    let body = match wish {
        Wish::Templates(templates) => templates_body(alloc, templates)?,
        Wish::Sparql(text) => Body::Text(text.copy()?),
    };
    param(alloc, Name::Query, body)
}

fn wish_params(alloc: Global, wish: &Wish) -> Result<Params, NoMemory>
    ensures { IfOk result (λ params. params ≡ params_of_wish wish.now) }
{
    let language = match wish {
        Wish::Templates(_) => Word::Templates,
        Wish::Sparql(_) => Word::Sparql,
    };
    let mut params = Params::new(alloc);
    params.push(word_param(alloc, Name::QueryType, language)?)?;
    params.push(query_param(alloc, wish)?)?;
    Ok(params)
}

fn number_params(alloc: Global, text: &Text) -> Result<Params, NoMemory>
    ensures { IfOk result (λ params. params ≡ params_of_ask Transaction.Unsubscribe (Ask.Unsubscribe text.now)) }
{
    let mut params = Params::new(alloc);
    let body = Body::Text(text.copy()?);
    params.push(param(alloc, Name::SubscriptionId, body)?)?;
    Ok(params)
}

fn ask_params(alloc: Global, transaction: Transaction, ask: &Ask) -> Result<Params, NoMemory>
    ensures { IfOk result (λ params. params ≡ params_of_ask transaction ask.now) }
{
    match ask {
        Ask::Join | Ask::Leave => Ok(Params::new(alloc)),
        Ask::Update {
            remove,
            insert,
            confirm,
        } => update_params(alloc, transaction, remove, insert, *confirm),
        Ask::Query(wish) | Ask::Subscribe(wish) => wish_params(alloc, wish),
        Ask::Unsubscribe(text) => number_params(alloc, text),
    }
}

/// The message of a request with these heads that asks for this: what is required comes first, graphs say that they are
/// `RDF-M3`, the wildcard is spelled `sib:any`, and `confirm` is there only where no confirm is wanted. The transaction is that
/// of what is asked for, and no subject and no predicate of a template is a literal.
pub fn asking_envelope(alloc: Global, heads: &Heads, ask: &Ask) -> Result<Envelope, NoMemory>
    requires uris { AskHasUris ask.now }
    requires asks { MayAsk heads.now.transaction ask.now }
    ensures { IfOk result (λ envelope. envelope ≡ request_of (record { heads = heads.now; ask = ask.now })) }
{
    let params = ask_params(alloc, heads.transaction, ask)?;
    let heads = copied_heads(heads, MessageType::Request)?;
    Ok(Envelope { heads, params })
}

/// The message of a request, as `asking_envelope` makes it of its parts.
pub fn request_envelope(alloc: Global, request: &Request) -> Result<Envelope, NoMemory>
    requires uris { AskHasUris request.now.ask }
    requires asks { MayAsk request.now.heads.transaction request.now.ask }
    ensures { IfOk result (λ envelope. envelope ≡ request_of request.now) }
{
    asking_envelope(alloc, &request.heads, &request.ask)
}
