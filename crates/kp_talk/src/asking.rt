//! What a task asks for, and the requests of a talk.
ghost use Rattle.std.specs.Prelude.{◌≡◌, ℕ, ◌<◌, ◌^◌, List, Option, None, [], IfOk, OnOk};
ghost use Rattle.ssap_shape.specs.Asking.{AskHasUris, MayAsk};
ghost use Rattle.kp_client.specs.Asked.{asked, asked_bytes};
ghost use Rattle.kp_talk.specs.Stages.{ask_of as asked_for, goal_of as goal_of_task, goal_transaction, HasUris};
ghost use Rattle.kp_talk.specs.Saying.{outlets, Does};

use crate::stage::Goal;
use crate::{Ending, Task};
use kp_client::Client;
use m3_terms::{NoMemory, Pattern, Patterns, Slot, Triple};
use sib_io::Sink;
use ssap_items::Transaction;
use ssap_shape::{Ask, Wish};
use std::alloc::Global;

/// The task without what it asks for.
pub(crate) fn goal_of(task: &Task) -> Goal
    ensures { result ≡ goal_of_task task.now }
{
    match task {
        Task::Insert(_) => Goal::Insert,
        Task::Query(_) => Goal::Query,
        Task::Watch { text: _, count } => Goal::Watch(*count),
    }
}

/// The transaction of a task's request.
pub(crate) fn transaction_of(goal: Goal) -> Transaction
    ensures { result ≡ goal_transaction goal }
{
    match goal {
        Goal::Insert => Transaction::Insert,
        Goal::Query => Transaction::Query,
        Goal::Watch(_) => Transaction::Subscribe,
    }
}

// The request to insert a triple.
fn inserts(alloc: Global, triple: Triple) -> Result<Ask, NoMemory>
    ensures { IfOk result (λ ask. ask ≡ asked_for (Task.Insert triple)) }
{
    let mut insert = Patterns::new(alloc);
    insert.push(Pattern {
        subject: Slot::Is(triple.subject),
        predicate: Slot::Is(triple.predicate),
        object: Slot::Is(triple.object),
    })?;
    Ok(Ask::Update {
        remove: Patterns::new(alloc),
        insert,
        confirm: true,
    })
}

/// What a task asks for.
pub(crate) fn ask_of(alloc: Global, task: Task) -> Result<Ask, NoMemory>
    ensures { IfOk result (λ ask. ask ≡ asked_for task) }
{
    match task {
        Task::Insert(triple) => inserts(alloc, triple),
        Task::Query(text) => Ok(Ask::Query(Wish::Sparql(text))),
        Task::Watch { text, count: _ } => Ok(Ask::Subscribe(Wish::Sparql(text))),
    }
}

/// Writes the client's next request, whose confirm is awaited from then on.
pub(crate) fn request<K: Sink>(
    alloc: Global,
    client: &mut Client,
    ask: &Ask,
    transaction: Transaction,
    sink: &mut K,
) -> Result<(), Ending>
    requires idle { client.old.awaited ≡ None }
    requires count { client.old.made < 2 ^ 63 }
    requires uris { AskHasUris ask.now }
    requires asks { MayAsk transaction ask.now }
    ensures asked { OnOk result (client.new ≡ asked client.old transaction) }
    ensures said { (printed : Option (List ℕ)) (prints : ℕ) → Does (outlets (K.given sink.old) printed (K.faults sink.old) prints) (outlets (K.given sink.new) printed (K.faults sink.new) prints)
        result (asked_bytes client.old transaction ask.now) [] }
{
    let bytes = client.request(alloc, ask, transaction)?;
    sink.write_all(bytes.as_slice())?;
    Ok(())
}
