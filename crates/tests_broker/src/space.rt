//! A space X in calls: what they answer, what a node k is confirmed, and the limits of nodes and of triples.
ghost use Rattle.std.specs.Prelude.{◌≡◌, ◌<◌};

use m3_terms::{Bytes, Pattern, Patterns, Slot, Steps, Term, Text, Triple};
use session_core::{
    Call, Core, LinkState, NODE_LIMIT, Reply, TRIPLE_LIMIT, answers_are_followed, changes_are_sent,
    messages_stay_in_order, other_links_stay, runs_stay_in_order, taken_is_a_prefix_of_sent,
    updates_make_the_graph, updates_remove_first,
};
use ssap_items::{Heads, MessageType, Transaction};
use ssap_shape::{Arrived, Ask, Request, Status, Wish};
use std::alloc::Global;
use std::marker::Brand;
use std::sync::ledger::{Blank, Ledger};
use std::test::Fail;
use std::thread::Threads;

const JOINED: &[u8] =
    b"<SSAP_message><message_type>CONFIRM</message_type><transaction_type>JOIN</transaction_type><transaction_id>1</transaction_id><node_id>k</node_id><space_id>X</space_id><parameter name=\"status\">m3:Success</parameter></SSAP_message>";

const INSERTED: &[u8] =
    b"<transaction_type>INSERT</transaction_type><transaction_id>1</transaction_id><node_id>k</node_id><space_id>X</space_id><parameter name=\"status\">m3:Success</parameter></SSAP_message>";

const LEFT: &[u8] =
    b"<transaction_type>LEAVE</transaction_type><transaction_id>1</transaction_id><node_id>k</node_id><space_id>X</space_id><parameter name=\"status\">m3:Success</parameter></SSAP_message>";

const FOUND_NONE: &[u8] =
    b"<SSAP_message><message_type>CONFIRM</message_type><transaction_type>QUERY</transaction_type><transaction_id>1</transaction_id><node_id>k</node_id><space_id>X</space_id><parameter name=\"status\">m3:Success</parameter><parameter name=\"results\"><triple_list></triple_list></parameter></SSAP_message>";

const FOUND_ON: &[u8] =
    b"<SSAP_message><message_type>CONFIRM</message_type><transaction_type>QUERY</transaction_type><transaction_id>1</transaction_id><node_id>k</node_id><space_id>X</space_id><parameter name=\"status\">m3:Success</parameter><parameter name=\"results\"><triple_list><triple><subject type=\"uri\">lamp</subject><predicate>state</predicate><object type=\"literal\">on</object></triple></triple_list></parameter></SSAP_message>";

const FOUND_OFF: &[u8] =
    b"<SSAP_message><message_type>CONFIRM</message_type><transaction_type>QUERY</transaction_type><transaction_id>1</transaction_id><node_id>k</node_id><space_id>X</space_id><parameter name=\"status\">m3:Success</parameter><parameter name=\"results\"><triple_list><triple><subject type=\"uri\">lamp</subject><predicate>state</predicate><object type=\"literal\">off</object></triple></triple_list></parameter></SSAP_message>";

const FOUND_STATE: &[u8] =
    b"<SSAP_message><message_type>CONFIRM</message_type><transaction_type>QUERY</transaction_type><transaction_id>1</transaction_id><node_id>k</node_id><space_id>X</space_id><parameter name=\"status\">m3:Success</parameter><parameter name=\"results\"><sparql xmlns=\"http://www.w3.org/2005/sparql-results#\"><head><variable name=\"o\"/></head><results><result><binding name=\"o\"><literal>on</literal></binding></result></results></sparql></parameter></SSAP_message>";

const SUBSCRIBED: &[u8] =
    b"<SSAP_message><message_type>CONFIRM</message_type><transaction_type>SUBSCRIBE</transaction_type><transaction_id>1</transaction_id><node_id>k</node_id><space_id>X</space_id><parameter name=\"status\">m3:Success</parameter><parameter name=\"subscription_id\">1</parameter><parameter name=\"results\"><triple_list></triple_list></parameter></SSAP_message>";

const TOLD_ON: &[u8] =
    b"<SSAP_message><message_type>INDICATION</message_type><transaction_type>SUBSCRIBE</transaction_type><transaction_id>1</transaction_id><node_id>k</node_id><space_id>X</space_id><parameter name=\"subscription_id\">1</parameter><parameter name=\"ind_sequence\">1</parameter><parameter name=\"new_results\"><triple_list><triple><subject type=\"uri\">lamp</subject><predicate>state</predicate><object type=\"literal\">on</object></triple></triple_list></parameter><parameter name=\"obsolete_results\"><triple_list></triple_list></parameter></SSAP_message>";

const TOLD_OFF: &[u8] =
    b"<SSAP_message><message_type>INDICATION</message_type><transaction_type>SUBSCRIBE</transaction_type><transaction_id>1</transaction_id><node_id>k</node_id><space_id>X</space_id><parameter name=\"subscription_id\">1</parameter><parameter name=\"ind_sequence\">1</parameter><parameter name=\"new_results\"><sparql xmlns=\"http://www.w3.org/2005/sparql-results#\"><head><variable name=\"o\"/></head><results><result><binding name=\"o\"><literal>off</literal></binding></result></results></sparql></parameter><parameter name=\"obsolete_results\"><sparql xmlns=\"http://www.w3.org/2005/sparql-results#\"><head><variable name=\"o\"/></head><results><result><binding name=\"o\"><literal>on</literal></binding></result></results></sparql></parameter></SSAP_message>";

const TOLD_END: &[u8] =
    b"<SSAP_message><message_type>INDICATION</message_type><transaction_type>UNSUBSCRIBE</transaction_type><transaction_id>1</transaction_id><node_id>k</node_id><space_id>X</space_id><parameter name=\"subscription_id\">1</parameter><parameter name=\"status\">m3:Success</parameter></SSAP_message>";

const SUCCESS: &[u8] = b"m3:Success</parameter></SSAP_message>";

const DENIED: &[u8] = b"m3:SIB.Error.AccessDenied</parameter></SSAP_message>";

const OVER: &[u8] = b"m3:SIB.Failure.OutOfResources</parameter></SSAP_message>";

const WRONG: &[u8] = b"m3:KP.Error.Message.Syntax</parameter></SSAP_message>";

// How many triples one request inserts on the way to the limit.
const BATCH: u32 = 1024;

fn request(
    alloc: Global,
    node: &[u8],
    transaction: Transaction,
    ask: Ask,
) -> Result<Arrived, Fail> {
    let transaction_id = Text::read(alloc, b"1")?;
    let node_id = Text::read(alloc, node)?;
    let space_id = Text::read(alloc, b"X")?;
    let heads = Heads {
        message: MessageType::Request,
        transaction,
        transaction_id,
        node_id,
        space_id,
    };
    Ok(Arrived::Request(Request { heads, ask }))
}

// That a lamp of this name is in this state.
fn lamp_is(alloc: Global, name: &[u8], object: Slot) -> Result<Pattern, Fail> {
    let subject = Slot::Is(Term::uri(alloc, name)?);
    let predicate = Slot::Is(Term::uri(alloc, b"state")?);
    Ok(Pattern {
        subject,
        predicate,
        object,
    })
}

// That a lamp of this name is on.
fn lamp(alloc: Global, name: &[u8]) -> Result<Pattern, Fail> {
    let on = Slot::Is(Term::literal(alloc, b"on")?);
    lamp_is(alloc, name, on)
}

// One pattern: that the lamp is in this state.
fn one_lamp(alloc: Global, object: Slot) -> Result<Patterns, Fail> {
    let mut patterns = Patterns::new(alloc);
    patterns.push(lamp_is(alloc, b"lamp", object)?)?;
    Ok(patterns)
}

fn insert(alloc: Global, insert: Patterns, confirm: bool) -> Result<Arrived, Fail> {
    let ask = Ask::Update {
        remove: Patterns::new(alloc),
        insert,
        confirm,
    };
    request(alloc, b"k", Transaction::Insert, ask)
}

fn insert_lamp(alloc: Global, confirm: bool) -> Result<Arrived, Fail> {
    let mut patterns = Patterns::new(alloc);
    patterns.push(lamp(alloc, b"lamp")?)?;
    insert(alloc, patterns, confirm)
}

// The lamp is off, whatever it was before.
fn switch_off(alloc: Global) -> Result<Arrived, Fail> {
    let remove = one_lamp(alloc, Slot::Any)?;
    let insert = one_lamp(alloc, Slot::Is(Term::literal(alloc, b"off")?))?;
    let ask = Ask::Update {
        remove,
        insert,
        confirm: true,
    };
    request(alloc, b"k", Transaction::Update, ask)
}

fn query(alloc: Global, wish: Wish) -> Result<Arrived, Fail> {
    request(alloc, b"k", Transaction::Query, Ask::Query(wish))
}

fn subscribe(alloc: Global, wish: Wish) -> Result<Arrived, Fail> {
    request(alloc, b"k", Transaction::Subscribe, Ask::Subscribe(wish))
}

fn unsubscribe(alloc: Global) -> Result<Arrived, Fail> {
    let ask = Ask::Unsubscribe(Text::read(alloc, b"1")?);
    request(alloc, b"k", Transaction::Unsubscribe, ask)
}

// Which state the lamp is in: by a template, and by a text.
fn lamp_by_template(alloc: Global) -> Result<Wish, Fail> {
    Ok(Wish::Templates(one_lamp(alloc, Slot::Any)?))
}

fn lamp_by_text(alloc: Global) -> Result<Wish, Fail> {
    let text = Text::read(alloc, b"SELECT DISTINCT ?o { <lamp> <state> ?o }")?;
    Ok(Wish::Sparql(text))
}

// A message that is wrong by itself.
fn wrong(alloc: Global) -> Result<Arrived, Fail> {
    match request(alloc, b"k", Transaction::Join, Ask::Join)? {
        Arrived::Request(request) => Ok(Arrived::Wrong {
            heads: request.heads,
            status: Status::Syntax,
        }),
        other => Ok(other),
    }
}

// What a letter stands for: the node joins, leaves, inserts with and without a confirm, updates, queries by a template or
// by a text, subscribes by a template or by a text, ends its first subscription; a wrong message; and else no request.
fn arrived(alloc: Global, letter: u8) -> Result<Arrived, Fail> {
    match letter {
        b'J' => request(alloc, b"k", Transaction::Join, Ask::Join),
        b'L' => request(alloc, b"k", Transaction::Leave, Ask::Leave),
        b'I' => insert_lamp(alloc, true),
        b'i' => insert_lamp(alloc, false),
        b'U' => switch_off(alloc),
        b'Q' => query(alloc, lamp_by_template(alloc)?),
        b'S' => query(alloc, lamp_by_text(alloc)?),
        b'P' => subscribe(alloc, lamp_by_template(alloc)?),
        b'A' => subscribe(alloc, lamp_by_text(alloc)?),
        b'D' => unsubscribe(alloc),
        b'W' => wrong(alloc),
        _ => Ok(Arrived::NotRequest),
    }
}

// A call in two letters, of which the second is the link: its input ends, it is lost, a message is taken, or one came.
fn call(alloc: Global, word: &[u8]) -> Result<Call, Fail> {
    let (letter, link) = match word {
        [letter, digit] => (*letter, u32::from(*digit & 15)),
        _ => return Err("no call".into()),
    };
    match letter {
        b'N' => Ok(Call::NewLink),
        b'E' => Ok(Call::End(link)),
        b'X' => Ok(Call::Lost(link)),
        b'T' => Ok(Call::Take(link)),
        _ => Ok(Call::Deliver(link, arrived(alloc, letter)?)),
    }
}

fn tell(alloc: Global, reply: &Reply) -> Result<String, Fail> {
    let told = match reply {
        Reply::Opened(link) => format!(in alloc; "o{link}")?,
        Reply::TooManyLinks { count } => format!(in alloc; "f{count}")?,
        Reply::Done { ring } => match ring.get(0) {
            Some(link) => format!(in alloc; "d{link}")?,
            None => format!(in alloc; "d")?,
        },
        Reply::Closed => format!(in alloc; "c")?,
        Reply::NoLink => format!(in alloc; "n")?,
        Reply::Message(_) => format!(in alloc; "m")?,
        Reply::Empty => format!(in alloc; "e")?,
        Reply::Over => format!(in alloc; "v")?,
    };
    Ok(told)
}

fn message_of(reply: Reply) -> Option<Bytes> {
    match reply {
        Reply::Message(message) => Some(message),
        _ => None,
    }
}

/// A space after some calls, what they answered in letters, and the message that was taken last.
#[derive(Drop)]
struct Room<L: Ledger> {
    core: Core,
    steps: Steps<L>,
    told: String,
    message: Bytes,
}

impl<L: Ledger> Room<L> {
    fn new(alloc: Global, blank: Blank) -> Result<Room<L>, Fail>
        requires name { blank.name ≡ L.name }
        requires parts { blank.parts ≡ L.parts }
        requires some { 0 < L.parts }
    {
        Ok(Room {
            core: Core::new(alloc, Text::read(alloc, b"X")?),
            steps: Steps::new(blank),
            told: String::new(alloc),
            message: Bytes::new(alloc),
        })
    }

    fn act<R: Threads + Sync>(&mut self, alloc: Global, rt: &R, call: Call) -> Result<(), Fail> {
        if self.core.count() > 1_000_000 {
            return Err("too many calls".into());
        }
        let reply = self.core.step(alloc, rt, call, &mut self.steps)?;
        self.told.push_str(tell(alloc, &reply)?.as_str())?;
        if let Some(message) = message_of(reply) {
            self.message = message;
        }
        Ok(())
    }

    // Calls of two letters each.
    fn play<R: Threads + Sync>(
        &mut self,
        alloc: Global,
        rt: &R,
        script: &[u8],
    ) -> Result<(), Fail> {
        for word in script.chunks_exact(2) {
            self.act(alloc, rt, call(alloc, word)?)?;
        }
        Ok(())
    }

    // What arrives on link 1, and the message that answers it.
    fn ask<R: Threads + Sync>(
        &mut self,
        alloc: Global,
        rt: &R,
        arrived: Arrived,
    ) -> Result<(), Fail> {
        self.act(alloc, rt, Call::Deliver(1, arrived))?;
        self.act(alloc, rt, Call::Take(1))
    }

    // So many nodes join.
    fn join_many<R: Threads + Sync>(
        &mut self,
        alloc: Global,
        rt: &R,
        count: u32,
    ) -> Result<(), Fail> {
        for number in 0..count {
            let node = format!(in alloc; "{number}")?;
            let join = request(alloc, node.as_bytes(), Transaction::Join, Ask::Join)?;
            self.ask(alloc, rt, join)?;
        }
        Ok(())
    }

    // So many lamps are on, which are numbered from this on.
    fn insert_many<R: Threads + Sync>(
        &mut self,
        alloc: Global,
        rt: &R,
        from: u32,
        count: u32,
    ) -> Result<(), Fail> {
        let mut patterns = Patterns::new(alloc);
        for number in 0..count {
            let name = format!(in alloc; "{}", from.saturating_add(number))?;
            patterns.push(lamp(alloc, name.as_bytes())?)?;
        }
        self.ask(alloc, rt, insert(alloc, patterns, true)?)
    }
}

// Calls, what they answer, how the message that is taken last ends, and how many updates and triples there are then.
type Case = (&'static [u8], &'static str, &'static [u8], u64, u64);

const CASES: [Case; 19] = [
    (b"N.J1T1", "o1d1m", JOINED, 0, 0),
    (b"N.J1T1I1I1T1", "o1d1md1d1m", INSERTED, 2, 1),
    (b"N.J1T1L1T1i1T1", "o1d1md1md1m", DENIED, 0, 0),
    (b"N.J1L1T1T1", "o1d1d1mm", LEFT, 0, 0),
    (b"N.J1T1i1T1", "o1d1mde", JOINED, 1, 1),
    (b"N.Q1T1", "o1d1m", DENIED, 0, 0),
    (b"N.J1T1Q1T1", "o1d1md1m", FOUND_NONE, 0, 0),
    (b"N.J1T1I1T1Q1T1", "o1d1md1md1m", FOUND_ON, 1, 1),
    (b"N.J1I1T1T1U1Q1T1T1", "o1d1d1mmd1d1mm", FOUND_OFF, 2, 1),
    (b"N.J1T1I1T1S1T1", "o1d1md1md1m", FOUND_STATE, 1, 1),
    (b"N.W1T1", "o1d1m", WRONG, 0, 0),
    (b"N.J1T1P1T1", "o1d1md1m", SUBSCRIBED, 0, 0),
    (b"N.N.J1T1P1T1i2T2T1", "o1o2d1md1md1em", TOLD_ON, 1, 1),
    (b"N.J1T1I1T1A1T1U1T1T1", "o1d1md1md1md1mm", TOLD_OFF, 2, 1),
    (b"N.J1T1P1T1D1T1T1", "o1d1md1md1mm", TOLD_END, 0, 0),
    (b"N.N.J2T1T2I1T2T1", "o1o2d2emd1em", INSERTED, 1, 1),
    (b"N.B1B1J1E1X1T1", "o1d1cccdv", b"", 0, 0),
    (b"J1E1X1T1T0", "nnnnn", b"", 0, 0),
    (b"N.J1J1X1T1X1J1", "o1d1d1d1vdc", b"", 0, 0),
];

impl<L: Ledger> Room<L> {
    fn ends_with(&self, end: &[u8]) -> bool {
        self.message.as_slice().ends_with(end)
    }

    fn is_as(&self, case: &Case) -> bool {
        self.told.as_str() == case.1
            && self.ends_with(case.2)
            && self.core.updates() == case.3
            && self.core.triples() == case.4
    }
}

// Whether a new space answers these calls so.
fn is_answered<R: Threads + Sync, L: Ledger>(
    alloc: Global,
    rt: &R,
    blank: Blank,
    case: &Case,
) -> Result<bool, Fail>
    requires name { blank.name ≡ L.name }
    requires parts { blank.parts ≡ L.parts }
    requires some { 0 < L.parts }
{
    let mut room = Room::<L>::new(alloc, blank)?;
    room.play(alloc, rt, case.0)?;
    Ok(room.is_as(case))
}

#[test]
fn calls_are_answered(rt: HostRuntime) -> Result<(), Fail> {
    let cases: &[Case] = &CASES;
    for case in cases {
        assert!(rt; is_answered::<HostRuntime, Brand>(rt.alloc(), &rt, Blank::new(1), case)?);
    }
    Ok(())
}

fn lamp_is_on(alloc: Global) -> Result<Triple, Fail> {
    Ok(lamp(alloc, b"lamp")?.into_triple().ok_or("no triple")?)
}

// A new space after calls of two letters each.
fn core_after<R: Threads + Sync, L: Ledger>(
    alloc: Global,
    rt: &R,
    blank: Blank,
    script: &[u8],
) -> Result<Core, Fail>
    requires name { blank.name ≡ L.name }
    requires parts { blank.parts ≡ L.parts }
    requires some { 0 < L.parts }
{
    let mut room = Room::<L>::new(alloc, blank)?;
    room.play(alloc, rt, script)?;
    Ok(room.core)
}

#[test]
fn a_space_is_asked_without_a_call(rt: HostRuntime) -> Result<(), Fail> {
    let lamp = lamp_is_on(rt.alloc())?;
    let core = core_after::<HostRuntime, Brand>(rt.alloc(), &rt, Blank::new(1), b"N.J1I1")?;
    assert!(rt; core.contains(&lamp));
    assert!(rt; core.name().as_bytes() == b"X".as_slice());
    assert_eq!(rt;
        (core.count(), core.subscriptions(), core.waiting(1)),
        (3, 0, 2)
    );
    assert_eq!(rt; core.link_state(1), LinkState::Open);
    assert!(rt; !Core::new(rt.alloc(), Text::read(rt.alloc(), b"X")?).contains(&lamp));
    Ok(())
}

// Whether 4,096 nodes join, another does not, and one of them joins again.
fn nodes_are_limited<R: Threads + Sync, L: Ledger>(
    alloc: Global,
    rt: &R,
    blank: Blank,
) -> Result<bool, Fail>
    requires name { blank.name ≡ L.name }
    requires parts { blank.parts ≡ L.parts }
    requires some { 0 < L.parts }
{
    let mut room = Room::<L>::new(alloc, blank)?;
    room.act(alloc, rt, Call::NewLink)?;
    room.join_many(alloc, rt, NODE_LIMIT as u32)?;
    let last = room.ends_with(SUCCESS);
    room.play(alloc, rt, b"J1T1")?;
    let another = room.ends_with(OVER);
    room.join_many(alloc, rt, 1)?;
    Ok(last && another && room.ends_with(SUCCESS))
}

#[test]
fn no_node_joins_beside_4096(rt: HostRuntime) -> Result<(), Fail> {
    assert!(rt; nodes_are_limited::<HostRuntime, Brand>(rt.alloc(), &rt, Blank::new(1))?);
    Ok(())
}

// Whether 262,144 triples are inserted, and another is not.
fn triples_are_limited<R: Threads + Sync, L: Ledger>(
    alloc: Global,
    rt: &R,
    blank: Blank,
) -> Result<bool, Fail>
    requires name { blank.name ≡ L.name }
    requires parts { blank.parts ≡ L.parts }
    requires some { 0 < L.parts }
{
    let mut room = Room::<L>::new(alloc, blank)?;
    room.play(alloc, rt, b"N.J1T1")?;
    for batch in 0..256 {
        room.insert_many(alloc, rt, 1_000_000 + batch * BATCH, BATCH)?;
    }
    let last = room.ends_with(SUCCESS) && room.core.triples() == TRIPLE_LIMIT as u64;
    room.insert_many(alloc, rt, 2_000_000, 1)?;
    Ok(last && room.ends_with(OVER) && room.core.triples() == TRIPLE_LIMIT as u64)
}

#[test]
fn no_triple_is_inserted_beside_262144(rt: HostRuntime) -> Result<(), Fail> {
    assert!(rt; triples_are_limited::<HostRuntime, Brand>(rt.alloc(), &rt, Blank::new(1))?);
    Ok(())
}

#[test]
fn the_laws_are_called() {
    updates_remove_first();
    runs_stay_in_order();
    updates_make_the_graph();
    messages_stay_in_order();
    taken_is_a_prefix_of_sent();
    answers_are_followed();
    changes_are_sent();
    other_links_stay();
}
