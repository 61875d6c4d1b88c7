//! Two messages that the broker sends, byte for byte, from what they tell: through answers, their bodies, their envelopes
//! and the spelling of these.
ghost use Rattle.std.specs.Prelude.{◌≡◌, IfOk, length};
ghost use Rattle.answer_bodies.specs.Writing.{IsFull};
ghost use Rattle.ssap_shape.specs.Replies.{HasFullAnswers};

use answer_bodies::{Answer, Difference};
use m3_terms::{Columns, Row, Rows, Term, Text, Triple, Triples};
use ssap_items::{Heads, MessageType, Transaction};
use ssap_shape::{Confirm, Indication, Status, confirm_envelope, indication_envelope};
use std::alloc::Global;
use std::test::Fail;

const ANSWERED: &[u8] =
    b"<SSAP_message><message_type>CONFIRM</message_type><transaction_type>QUERY</transaction_type><transaction_id>3</transaction_id><node_id>k</node_id><space_id>X</space_id><parameter name=\"status\">m3:Success</parameter><parameter name=\"results\"><triple_list><triple><subject type=\"uri\">lamp</subject><predicate>state</predicate><object type=\"literal\">on</object></triple></triple_list></parameter></SSAP_message>";

const CHANGED: &[u8] =
    b"<SSAP_message><message_type>INDICATION</message_type><transaction_type>SUBSCRIBE</transaction_type><transaction_id>3</transaction_id><node_id>k</node_id><space_id>X</space_id><parameter name=\"subscription_id\">1</parameter><parameter name=\"ind_sequence\">1</parameter><parameter name=\"new_results\"><sparql xmlns=\"http://www.w3.org/2005/sparql-results#\"><head><variable name=\"s\"/><variable name=\"n\"/></head><results><result><binding name=\"s\"><uri>lamp</uri></binding><binding name=\"n\"><literal>L</literal></binding></result></results></sparql></parameter><parameter name=\"obsolete_results\"><sparql xmlns=\"http://www.w3.org/2005/sparql-results#\"><head><variable name=\"s\"/><variable name=\"n\"/></head><results><result><binding name=\"s\"><uri>lamp</uri></binding></result></results></sparql></parameter></SSAP_message>";

fn heads(alloc: Global, transaction: Transaction) -> Result<Heads, Fail> {
    let transaction_id = Text::read(alloc, b"3")?;
    let node_id = Text::read(alloc, b"k")?;
    let space_id = Text::read(alloc, b"X")?;
    Ok(Heads {
        message: MessageType::Request,
        transaction,
        transaction_id,
        node_id,
        space_id,
    })
}

fn lamp_is_on(alloc: Global) -> Result<Answer, Fail>
    ensures { IfOk result IsFull }
{
    let subject = Term::uri(alloc, b"lamp")?;
    let predicate = Term::uri(alloc, b"state")?;
    let object = Term::literal(alloc, b"on")?;
    let triple = Triple::new(subject, predicate, object).ok_or("no triple")?;
    let mut triples = Triples::new(alloc);
    triples.push(triple)?;
    Ok(Answer::Triples(triples))
}

fn columns(alloc: Global) -> Result<Columns, Fail>
    ensures { IfOk result (λ columns. length columns ≡ 2) }
{
    let mut columns = Columns::new(alloc);
    columns.push(Text::read(alloc, b"s")?)?;
    columns.push(Text::read(alloc, b"n")?)?;
    Ok(columns)
}

fn row(alloc: Global, name: Option<Term>) -> Result<Row, Fail>
    ensures { IfOk result (λ row. length row ≡ 2) }
{
    let mut row = Row::new(alloc);
    row.push(Some(Term::uri(alloc, b"lamp")?))?;
    row.push(name)?;
    Ok(row)
}

// The lamp and its name, if it has one.
fn named(alloc: Global, name: Option<Term>) -> Result<Answer, Fail>
    ensures { IfOk result IsFull }
{
    let columns = columns(alloc)?;
    let mut rows = Rows::new(alloc);
    rows.push(row(alloc, name)?)?;
    Ok(Answer::Table { columns, rows })
}

fn change(alloc: Global) -> Result<Indication, Fail>
    ensures { IfOk result HasFullAnswers }
{
    let added = named(alloc, Some(Term::literal(alloc, b"L")?))?;
    let obsolete = named(alloc, None)?;
    Ok(Indication::Changes {
        heads: heads(alloc, Transaction::Subscribe)?,
        subscription: 1,
        sequence: 1,
        difference: Difference { added, obsolete },
    })
}

#[test]
fn a_query_is_answered(rt: HostRuntime) -> Result<(), Fail> {
    let alloc = rt.alloc();
    let confirm = Confirm {
        heads: heads(alloc, Transaction::Query)?,
        status: Status::Success,
        subscription: None,
        answer: Some(lamp_is_on(alloc)?),
    };
    let envelope = confirm_envelope(alloc, &confirm)?;
    assert_eq!(rt;
        ssap_encode::to_bytes(alloc, &envelope)?.as_slice(),
        ANSWERED
    );
    Ok(())
}

#[test]
fn a_change_is_told(rt: HostRuntime) -> Result<(), Fail> {
    let alloc = rt.alloc();
    let envelope = indication_envelope(alloc, &change(alloc)?)?;
    assert_eq!(rt;
        ssap_encode::to_bytes(alloc, &envelope)?.as_slice(),
        CHANGED
    );
    Ok(())
}
