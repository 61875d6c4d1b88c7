//! Follows a query: joins a space, inserts a triple, subscribes, and prints the answer after each change. What the broker
//! sends comes on standard input. The requests go to standard output, and so do the answers. docs/CLIENT.md explains it.
#![tactic(auto)]

mod asking;
mod fault;
mod following;
mod link;
mod printing;

ghost use Rattle.std.specs.Prelude.{IfOk};
ghost use Rattle.ssap_shape.specs.Asking.{AskHasUris, MayAsk};
ghost use Rattle.ssap_items.specs.declared.heads.Transaction.TheVariants.{Insert};

use crate::asking::{ask, subscribe};
use crate::fault::Fault;
use crate::following::follow;
use crate::link::Link;
use kp_client::Client;
use m3_terms::{Pattern, Patterns, Slot, Term, Text};
use sib_io::{Sink, Source, StdSink, StdSource};
use ssap_items::Transaction;
use ssap_shape::{Ask, Wish};
use std::alloc::Global;
use std::io::{self, BufReader};
use std::process::ExitCode;

/// The query: which lamps are on.
const QUERY: &[u8] = b"SELECT DISTINCT ?lamp { ?lamp <state> \"on\" }";

fn main(rt: HostRuntime) -> ExitCode {
    let Ok(reader) = BufReader::new(rt.alloc(), rt.reader()) else {
        return ExitCode::from(1);
    };
    let mut sink = StdSink::new(io::writer(&rt));
    let mut out = StdSink::new(io::writer(&rt));
    match run(rt.alloc(), StdSource::new(reader), &mut sink, &mut out) {
        Ok(()) => ExitCode::SUCCESS,
        Err(_) => ExitCode::from(1),
    }
}

// The errand of the node `hall` in the space `house`.
fn run<S: Source + Drop, K: Sink, O: Sink>(
    alloc: Global,
    source: S,
    sink: &mut K,
    out: &mut O,
) -> Result<(), Fault> {
    let mut link = Link::new(alloc, source);
    let mut client = Client::new(Text::read(alloc, b"house")?, Text::read(alloc, b"hall")?);
    ask(
        alloc,
        &mut client,
        &mut link,
        sink,
        &Ask::Join,
        Transaction::Join,
    )?;
    let insert = lamp_is_on(alloc)?;
    ask(
        alloc,
        &mut client,
        &mut link,
        sink,
        &insert,
        Transaction::Insert,
    )?;
    let query = Wish::Sparql(Text::read(alloc, QUERY)?);
    let mirror = subscribe(alloc, &mut client, &mut link, sink, query)?;
    follow(alloc, &mut link, mirror, out)
}

// That the lamp of the hall is on, as an INSERT asks for it.
fn lamp_is_on(alloc: Global) -> Result<Ask, Fault>
    ensures uris { IfOk result AskHasUris }
    ensures asks { IfOk result (MayAsk Insert) }
{
    let mut insert = Patterns::new(alloc);
    insert.push(Pattern {
        subject: Slot::Is(Term::uri(alloc, b"hall")?),
        predicate: Slot::Is(Term::uri(alloc, b"state")?),
        object: Slot::Is(Term::literal(alloc, b"on")?),
    })?;
    Ok(Ask::Update {
        remove: Patterns::new(alloc),
        insert,
        confirm: true,
    })
}
