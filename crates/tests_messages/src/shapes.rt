ghost use Rattle.answer_bodies.specs.Writing.{IsFull};

use crate::spelled::{envelope, repeated, spelling};
use answer_bodies::{Answer, Difference};
use m3_terms::{Patterns, Slot, Term, Triples};
use ssap_items::Heads;
use ssap_shape::{
    Arrived, Ask, Confirm, Indication, Status, Wish, confirm_envelope, indication_envelope, shape,
};
use std::alloc::Global;
use std::test::Fail;

const INCOMPLETE: &str = "m3:KP.Error.Message.Incomplete";

const SYNTAX: &str = "m3:KP.Error.Message.Syntax";

const UNBUILT: &str = "m3:SIB.Failure.NotImplemented";

/// Transactions, parameters, and what such a request comes to. Of a template it shows the kinds of its slots: a uri, a
/// literal or the wildcard.
const REQUESTS: [(&str, &str, &str); 23] = [
    (
        "JOIN",
        "<parameter name='credentials'>x</parameter>",
        "join",
    ),
    ("JOIN", "<parameter name='confirm'>TRUE</parameter>", SYNTAX),
    ("LEAVE", "", "leave"),
    (
        "INSERT",
        "<parameter name='insert_graph'><triple_list><triple><subject>a</subject><predicate>p</predicate><object type='literal'>x</object></triple></triple_list></parameter>",
        "-+uul.y",
    ),
    (
        "INSERT",
        "<parameter name='confirm'>false</parameter><parameter name='insert_graph' encoding='rdf-m3'><triple_list><triple><subject>a</subject><predicate>p</predicate><object type='uri'>sib:any</object></triple><triple><subject>b</subject><predicate>p</predicate><object type='literal'>sib:any</object></triple></triple_list></parameter>",
        "-+uu*.uul.n",
    ),
    (
        "INSERT",
        "<parameter name='confirm'>maybe</parameter>",
        INCOMPLETE,
    ),
    (
        "INSERT",
        "<parameter name='insert_graph'><triple_list/></parameter><parameter name='confirm'>maybe</parameter>",
        SYNTAX,
    ),
    (
        "INSERT",
        "<parameter name='insert_graph'><triple_list/></parameter><parameter name='insert_graph'><triple_list/></parameter>",
        SYNTAX,
    ),
    (
        "INSERT",
        "<parameter name='insert_graph'><triple_list/></parameter><parameter name='remove_graph'><triple_list/></parameter>",
        SYNTAX,
    ),
    (
        "INSERT",
        "<parameter name='insert_graph'>x</parameter>",
        SYNTAX,
    ),
    (
        "INSERT",
        "<parameter name='insert_graph'><triple_list><triple><subject/><predicate>p</predicate><object type='bnode'>x</object></triple></triple_list></parameter>",
        SYNTAX,
    ),
    (
        "INSERT",
        "<parameter name='insert_graph'><triple_list><triple><subject type='bnode'/><predicate>p</predicate><object type='uri'>x</object></triple></triple_list></parameter>",
        UNBUILT,
    ),
    (
        "INSERT",
        "<parameter name='insert_graph' encoding='RDF-XML'>x</parameter>",
        UNBUILT,
    ),
    (
        "REMOVE",
        "<parameter name='remove_graph'><triple_list><triple><subject>http://www.nokia.com/NRC/M3/sib#any</subject><predicate>sib:any</predicate><object type='literal'>x</object></triple></triple_list></parameter>",
        "-**l.+y",
    ),
    (
        "UPDATE",
        "<parameter name='insert_graph'><triple_list/></parameter><parameter name='remove_graph'><triple_list/></parameter><parameter name='confirm'>true</parameter>",
        "-+y",
    ),
    (
        "UPDATE",
        "<parameter name='insert_graph'>x</parameter>",
        INCOMPLETE,
    ),
    (
        "QUERY",
        "<parameter name='query'><triple_list><triple><subject>a</subject><predicate>sib:any</predicate><object type='uri'>x</object></triple></triple_list></parameter><parameter name='type'>rdf-m3</parameter>",
        "u*u.",
    ),
    (
        "QUERY",
        "<parameter name='type'>RDF-M3</parameter><parameter name='query'>ASK</parameter>",
        SYNTAX,
    ),
    (
        "QUERY",
        "<parameter name='type'>WQL</parameter><parameter name='query'><triple_list/></parameter>",
        UNBUILT,
    ),
    (
        "QUERY",
        "<parameter name='type'>RDF-M3</parameter>",
        INCOMPLETE,
    ),
    (
        "SUBSCRIBE",
        "<parameter name='type'>SPARQL</parameter><parameter name='query'>ASK</parameter>",
        "subscribe ASK",
    ),
    (
        "UNSUBSCRIBE",
        "<parameter name='subscription_id'>07</parameter>",
        "unsubscribe 07",
    ),
    (
        "UNSUBSCRIBE",
        "<parameter name='subscription_id'><triple_list/></parameter>",
        SYNTAX,
    ),
];

/// A request to join without its node, and a query by templates without them.
const JOIN: (&[u8], &[u8]) = (
    b"<SSAP_message><message_type>REQUEST</message_type><transaction_type>JOIN</transaction_type><transaction_id>1</transaction_id><space_id>X</space_id><node_id>",
    b"</node_id></SSAP_message>",
);

const QUERY: (&[u8], &[u8]) = (
    b"<SSAP_message><message_type>REQUEST</message_type><transaction_type>QUERY</transaction_type><transaction_id>1</transaction_id><node_id>k</node_id><space_id>X</space_id><parameter name='type'>RDF-M3</parameter><parameter name='query'><triple_list>",
    b"</triple_list></parameter></SSAP_message>",
);

/// A triple, and one whose literal is still to come.
const TRIPLE: &[u8] =
    b"<triple><subject>a</subject><predicate>p</predicate><object type='uri'>x</object></triple>";

const LITERAL: (&[u8], &[u8]) = (
    b"<triple><subject>a</subject><predicate>p</predicate><object type='literal'>",
    b"</object></triple>",
);

fn letter(slot: &Slot) -> u8 {
    match slot {
        Slot::Any => b'*',
        Slot::Is(Term::Uri(_)) => b'u',
        Slot::Is(Term::Literal(_)) => b'l',
    }
}

fn show_templates(out: &mut Vec<u8>, templates: &Patterns) -> Result<(), Fail> {
    for template in templates.as_slice() {
        out.push(letter(&template.subject))?;
        out.push(letter(&template.predicate))?;
        out.push(letter(&template.object))?;
        out.push(b'.')?;
    }
    Ok(())
}

fn show_wish(out: &mut Vec<u8>, wish: &Wish) -> Result<(), Fail> {
    match wish {
        Wish::Templates(templates) => show_templates(out, templates)?,
        Wish::Sparql(text) => out.extend_from_slice(text.as_bytes())?,
    }
    Ok(())
}

fn show_update(
    out: &mut Vec<u8>,
    remove: &Patterns,
    insert: &Patterns,
    confirm: bool,
) -> Result<(), Fail> {
    out.push(b'-')?;
    show_templates(out, remove)?;
    out.push(b'+')?;
    show_templates(out, insert)?;
    out.push(if confirm { b'y' } else { b'n' })?;
    Ok(())
}

fn show_text(out: &mut Vec<u8>, word: &str) -> Result<(), Fail> {
    out.extend_from_slice(word.as_bytes())?;
    Ok(())
}

fn show_ask(out: &mut Vec<u8>, ask: &Ask) -> Result<(), Fail> {
    match ask {
        Ask::Join => show_text(out, "join"),
        Ask::Leave => show_text(out, "leave"),
        Ask::Update {
            remove,
            insert,
            confirm,
        } => show_update(out, remove, insert, *confirm),
        Ask::Query(wish) => show_wish(out, wish),
        Ask::Subscribe(wish) => {
            show_text(out, "subscribe ")?;
            show_wish(out, wish)
        }
        Ask::Unsubscribe(text) => {
            show_text(out, "unsubscribe ")?;
            out.extend_from_slice(text.as_bytes())?;
            Ok(())
        }
    }
}

/// What a message comes to.
fn outcome(alloc: Global, bytes: &[u8]) -> Result<Vec<u8>, Fail> {
    let mut out = Vec::new(alloc);
    match shape(alloc, &envelope(alloc, bytes)?)? {
        Arrived::Request(request) => show_ask(&mut out, &request.ask)?,
        Arrived::Wrong { status, .. } => out.extend_from_slice(status.as_bytes())?,
        Arrived::NotRequest => out.push(b'?')?,
    }
    Ok(out)
}

/// A request of a node k to a space X.
fn request(alloc: Global, transaction: &str, params: &str) -> Result<Vec<u8>, Fail> {
    let heads =
        "<message_type>REQUEST</message_type><transaction_id>1</transaction_id><node_id>k</node_id><space_id>X</space_id>";
    let text = format!(in alloc;
        "<SSAP_message>{heads}<transaction_type>{transaction}</transaction_type>{params}</SSAP_message>"
    )?;
    Ok(Vec::from_slice(alloc, text.as_bytes())?)
}

#[test]
fn requests_come_to_what_they_ask_for(rt: HostRuntime) -> Result<(), Fail> {
    for (transaction, params, wanted) in REQUESTS.iter() {
        let bytes = request(rt.alloc(), transaction, params)?;
        assert_eq!(rt; outcome(rt.alloc(), &bytes)?.as_slice(), wanted.as_bytes());
    }
    Ok(())
}

#[test]
fn limits_are_kept(rt: HostRuntime) -> Result<(), Fail> {
    let alloc = rt.alloc();
    for (count, wanted) in [(0, "?"), (1024, "join"), (1025, "?")] {
        let bytes = repeated(alloc, JOIN.0, b"a", count, JOIN.1)?;
        assert_eq!(rt; outcome(alloc, &bytes)?.as_slice(), wanted.as_bytes());
    }
    for (count, is_refused) in [(32, false), (33, true)] {
        let bytes = repeated(alloc, QUERY.0, TRIPLE, count, QUERY.1)?;
        assert_eq!(rt;
            outcome(alloc, &bytes)?.starts_with(b"m3:SIB.Failure.OutOf"),
            is_refused
        );
    }
    for (count, is_refused) in [(4096, false), (4097, true)] {
        let literal = repeated(alloc, LITERAL.0, b"a", count, LITERAL.1)?;
        let bytes = repeated(alloc, QUERY.0, &literal, 1, QUERY.1)?;
        assert_eq!(rt;
            outcome(alloc, &bytes)?.starts_with(b"m3:SIB.Failure.OutOf"),
            is_refused
        );
    }
    Ok(())
}

fn heads(alloc: Global) -> Result<Heads, Fail> {
    Ok(envelope(alloc, &request(alloc, "SUBSCRIBE", "")?)?.heads)
}

fn none(alloc: Global) -> Answer
    ensures { IsFull result }
{
    Answer::Triples(Triples::new(alloc))
}

#[test]
fn answers_are_messages(rt: HostRuntime) -> Result<(), Fail> {
    let alloc = rt.alloc();
    let confirm = Confirm {
        heads: heads(alloc)?,
        status: Status::Success,
        subscription: Some(1024),
        answer: Some(none(alloc)),
    };
    let confirm = spelling(alloc, &confirm_envelope(alloc, &confirm)?)?;
    let wanted =
        b"<SSAP_message><message_type>CONFIRM</message_type><transaction_type>SUBSCRIBE</transaction_type><transaction_id>1</transaction_id><node_id>k</node_id><space_id>X</space_id><parameter name=\"status\">m3:Success</parameter><parameter name=\"subscription_id\">1024</parameter><parameter name=\"results\"><triple_list></triple_list></parameter></SSAP_message>";
    assert_eq!(rt; confirm.as_slice(), wanted.as_slice());
    Ok(())
}

#[test]
fn indications_are_messages(rt: HostRuntime) -> Result<(), Fail> {
    let alloc = rt.alloc();
    let changes = Indication::Changes {
        heads: heads(alloc)?,
        subscription: 7,
        sequence: 1,
        difference: Difference {
            added: none(alloc),
            obsolete: none(alloc),
        },
    };
    let changes = spelling(alloc, &indication_envelope(alloc, &changes)?)?;
    let wanted =
        b"<SSAP_message><message_type>INDICATION</message_type><transaction_type>SUBSCRIBE</transaction_type><transaction_id>1</transaction_id><node_id>k</node_id><space_id>X</space_id><parameter name=\"subscription_id\">7</parameter><parameter name=\"ind_sequence\">1</parameter><parameter name=\"new_results\"><triple_list></triple_list></parameter><parameter name=\"obsolete_results\"><triple_list></triple_list></parameter></SSAP_message>";
    assert_eq!(rt; changes.as_slice(), wanted.as_slice());
    Ok(())
}

#[test]
fn ends_are_messages(rt: HostRuntime) -> Result<(), Fail> {
    let alloc = rt.alloc();
    let ended = Indication::Ended {
        heads: heads(alloc)?,
        subscription: 7,
        status: Status::OutOfResources,
    };
    let ended = spelling(alloc, &indication_envelope(alloc, &ended)?)?;
    let wanted =
        b"<SSAP_message><message_type>INDICATION</message_type><transaction_type>SUBSCRIBE</transaction_type><transaction_id>1</transaction_id><node_id>k</node_id><space_id>X</space_id><parameter name=\"subscription_id\">7</parameter><parameter name=\"status\">m3:SIB.Failure.OutOfResources</parameter></SSAP_message>";
    assert_eq!(rt; ended.as_slice(), wanted.as_slice());
    Ok(())
}
