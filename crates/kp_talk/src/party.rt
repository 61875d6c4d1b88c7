ghost use Rattle.std.specs.Prelude.{◌≡◌, ◌≢◌, ℕ, zero, ◌+◌, ◌<◌, ◌^◌, List, [], ◌∷◌, Option, Some, None, true, false, IfOk, IfSome, OnOk, MatchBool};
ghost use Rattle.std.specs.Fmt.{decimal};
ghost use Rattle.answer_bodies.specs.Laws.{IsSound};
ghost use Rattle.answer_bodies.specs.Differences.{IsInOrder};
ghost use Rattle.answer_bodies.specs.Writing.{IsFull};
ghost use Rattle.ssap_shape.specs.Told.{is_success};
ghost use Rattle.ssap_shape.specs.Sendable.{IsSoundIncoming, IsSoundConfirm, IsSoundIndication};
ghost use Rattle.ssap_shape.specs.declared.reply.Incoming.TheVariants as incomings;
ghost use Rattle.kp_client.specs.Asked.{asked, idle};
ghost use Rattle.kp_client.specs.Mirroring.{Mirroring};
ghost use Rattle.kp_talk.specs.Talk.{follows, leaves, performs, answered, subscribed};
ghost use Rattle.kp_talk.specs.Stages.{ask_of as asked_for, goal_of as goal_of_task, IsFor, IsOn, IsPast, IsReady, AwaitsConfirm, HasUris, told_to, next_at, task_next};
ghost use Rattle.kp_talk.specs.Saying.{outlets, Does, Answers, Begins};
ghost use Rattle.kp_talk.specs.declared.errand.Errand.{Errand as ErrandOf};
ghost use Rattle.kp_talk.specs.declared.stage.Stage.TheVariants as stage;

use crate::asking::{ask_of, goal_of, request, transaction_of};
use crate::following::follow;
use crate::lines::{print_answer, print_inserted};
use crate::stage::{Goal, Stage};
use crate::{Ending, Errand, Finish};
use answer_bodies::Answer;
use kp_client::{Client, ClientFault, Event, Mirror};
use sib_io::Sink;
use ssap_items::Transaction;
use ssap_shape::{Ask, Confirm, Incoming, number_text};
use std::alloc::Global;

/// A party to a talk on an errand: the client that asks, what its task asks for, and what it awaits.
#[derive(Debug, Drop)]
pub(crate) struct Party {
    client: Client,
    ask: Ask,
    goal: Goal,
    stage: Stage,
}

impl Party {
    /// A party that asked to join.
    pub(crate) fn start<K: Sink>(
        alloc: Global,
        errand: Errand,
        sink: &mut K,
    ) -> Result<Party, Ending>
        requires { HasUris errand.task }
        ensures { (printed : Option (List ℕ)) (prints : ℕ) → Begins errand (outlets (K.given sink.old) printed (K.faults sink.old) prints) (outlets (K.given sink.new) printed (K.faults sink.new) prints) result }
    {
        let Errand { space, node, task } = errand;
        let goal = goal_of(&task);
        let ask = ask_of(alloc, task)?;
        let mut client = Client::new(space, node);
        request(alloc, &mut client, &Ask::Join, Transaction::Join, sink)?;
        Ok(Party {
            client,
            ask,
            goal,
            stage: Stage::Joining,
        })
    }

    /// Answers what it is told: prints a line, and asks for what comes next.
    pub(crate) fn hear<K: Sink, O: Sink>(
        &mut self,
        alloc: Global,
        incoming: Incoming,
        sink: &mut K,
        out: &mut O,
    ) -> Result<(), Ending>
        requires on { (errand : ErrandOf) × IsOn errand self.old }
        requires sound { IsSoundIncoming incoming }
        ensures { (errand : ErrandOf) → IsOn errand self.old → Answers errand (told_to errand self.old incoming)
            (outlets (K.given sink.old) (O.given out.old) (K.faults sink.old) (O.faults out.old)) (outlets (K.given sink.new) (O.given out.new) (K.faults sink.new) (O.faults out.new)) result self.new }
    {
        if self.awaits_confirm() {
            self.confirm(alloc, incoming, sink, out)
        } else {
            self.change(alloc, incoming, sink, out)
        }
    }

    // Whether it awaits a confirm, and no change.
    fn awaits_confirm(&self) -> bool
        ensures { MatchBool result (AwaitsConfirm self.now.stage) (¬ (AwaitsConfirm self.now.stage)) }
    {
        match &self.stage {
            Stage::Joining => true,
            Stage::Asking => true,
            Stage::Following { left: _, mirror: _ } => false,
            Stage::Unsubscribing(_) => true,
            Stage::Leaving => true,
        }
    }

    // Takes what it is told while it awaits changes, and ends the subscription behind the last.
    fn change<K: Sink, O: Sink>(
        &mut self,
        alloc: Global,
        incoming: Incoming,
        sink: &mut K,
        out: &mut O,
    ) -> Result<(), Ending>
        requires follows { ¬ (AwaitsConfirm self.old.stage) }
        requires on { (errand : ErrandOf) × IsOn errand self.old }
        requires sound { IsSoundIncoming incoming }
        ensures { (errand : ErrandOf) → IsOn errand self.old → Answers errand (told_to errand self.old incoming)
            (outlets (K.given sink.old) (O.given out.old) (K.faults sink.old) (O.faults out.old)) (outlets (K.given sink.new) (O.given out.new) (K.faults sink.new) (O.faults out.new)) result self.new }
    {
        match &mut self.stage {
            Stage::Following { left, mirror } => {
                let number = mirror.subscription();
                if follow(alloc, left, mirror, incoming, out)? {
                    return Ok(());
                }
                self.unsubscribe(alloc, number, sink)
            }
            Stage::Joining => unreachable!(),
            Stage::Asking => unreachable!(),
            Stage::Unsubscribing(_) => unreachable!(),
            Stage::Leaving => unreachable!(),
        }
    }

    // Takes what it is told while it awaits a confirm.
    fn confirm<K: Sink, O: Sink>(
        &mut self,
        alloc: Global,
        incoming: Incoming,
        sink: &mut K,
        out: &mut O,
    ) -> Result<(), Ending>
        requires awaits { AwaitsConfirm self.old.stage }
        requires on { (errand : ErrandOf) × IsOn errand self.old }
        requires sound { IsSoundIncoming incoming }
        ensures { (errand : ErrandOf) → IsOn errand self.old → Answers errand (told_to errand self.old incoming)
            (outlets (K.given sink.old) (O.given out.old) (K.faults sink.old) (O.faults out.old)) (outlets (K.given sink.new) (O.given out.new) (K.faults sink.new) (O.faults out.new)) result self.new }
    {
        match self.client.take(incoming) {
            Ok(Event::Confirmed(confirm)) => self.advance(alloc, confirm, sink, out),
            Ok(Event::Passed(_)) => Ok(()),
            Err(ClientFault::Unexpected { want: _, got: _ }) => {
                Err(Ending::Finished(Finish::BrokenMessage))
            }
            Err(ClientFault::Refused { status }) => Err(Ending::Finished(Finish::Refused(status))),
            Err(ClientFault::NoMemory) => Err(Ending::NoMemory),
        }
    }

    // Does what follows from the confirm that it awaited.
    fn advance<K: Sink, O: Sink>(
        &mut self,
        alloc: Global,
        confirm: Confirm,
        sink: &mut K,
        out: &mut O,
    ) -> Result<(), Ending>
        requires awaits { AwaitsConfirm self.old.stage }
        requires past { (errand : ErrandOf) × IsPast errand self.old }
        requires sound { IsSoundConfirm confirm }
        ensures { (errand : ErrandOf) → IsPast errand self.old → Answers errand (next_at errand self.old.stage confirm)
            (outlets (K.given sink.old) (O.given out.old) (K.faults sink.old) (O.faults out.old)) (outlets (K.given sink.new) (O.given out.new) (K.faults sink.new) (O.faults out.new)) result self.new }
    {
        match &self.stage {
            Stage::Joining => self.perform(alloc, sink),
            Stage::Asking => self.finish_task(alloc, confirm, sink, out),
            Stage::Unsubscribing(_) => self.leave(alloc, sink),
            Stage::Leaving => Err(Ending::Finished(Finish::Done)),
            Stage::Following { left: _, mirror: _ } => unreachable!(),
        }
    }

    // Asks for what the task asks for.
    fn perform<K: Sink>(&mut self, alloc: Global, sink: &mut K) -> Result<(), Ending>
        requires ready { (errand : ErrandOf) × IsReady errand self.old 2 }
        ensures { (errand : ErrandOf) → IsReady errand self.old 2 → (printed : Option (List ℕ)) (prints : ℕ)
            → Answers errand (λ more last. performs last errand errand.task more) (outlets (K.given sink.old) printed (K.faults sink.old) prints) (outlets (K.given sink.new) printed (K.faults sink.new) prints) result self.new }
    {
        let transaction = transaction_of(self.goal);
        request(alloc, &mut self.client, &self.ask, transaction, sink)?;
        self.stage = Stage::Asking;
        Ok(())
    }

    // Prints what the confirm of the task tells, and goes on.
    fn finish_task<K: Sink, O: Sink>(
        &mut self,
        alloc: Global,
        confirm: Confirm,
        sink: &mut K,
        out: &mut O,
    ) -> Result<(), Ending>
        requires ready { (errand : ErrandOf) × IsReady errand self.old 3 }
        requires sound { IsSoundConfirm confirm }
        ensures { (errand : ErrandOf) → IsReady errand self.old 3 → Answers errand (λ more last. task_next last errand errand.task confirm more)
            (outlets (K.given sink.old) (O.given out.old) (K.faults sink.old) (O.faults out.old)) (outlets (K.given sink.new) (O.given out.new) (K.faults sink.new) (O.faults out.new)) result self.new }
    {
        match self.goal {
            Goal::Insert => {
                print_inserted(out)?;
                self.leave(alloc, sink)
            }
            Goal::Query => self.answer(alloc, confirm.answer, sink, out),
            Goal::Watch(count) => {
                self.watch(
                    alloc,
                    count,
                    confirm.subscription,
                    confirm.answer,
                    sink,
                    out,
                )
            }
        }
    }

    // Prints the answer of a query, and leaves.
    fn answer<K: Sink, O: Sink>(
        &mut self,
        alloc: Global,
        answer: Option<Answer>,
        sink: &mut K,
        out: &mut O,
    ) -> Result<(), Ending>
        requires ready { (errand : ErrandOf) × IsReady errand self.old 3 }
        ensures { (errand : ErrandOf) → IsReady errand self.old 3 → Answers errand (λ more last. answered last errand answer more)
            (outlets (K.given sink.old) (O.given out.old) (K.faults sink.old) (O.faults out.old)) (outlets (K.given sink.new) (O.given out.new) (K.faults sink.new) (O.faults out.new)) result self.new }
    {
        let Some(answer) = answer else {
            return Err(Ending::Finished(Finish::BrokenMessage));
        };
        print_answer(alloc, 0, &answer, out)?;
        self.leave(alloc, sink)
    }

    // Prints the first answer of a subscription, and follows it.
    fn watch<K: Sink, O: Sink>(
        &mut self,
        alloc: Global,
        count: u32,
        number: Option<u64>,
        answer: Option<Answer>,
        sink: &mut K,
        out: &mut O,
    ) -> Result<(), Ending>
        requires ready { (errand : ErrandOf) × IsReady errand self.old 3 }
        requires sound { IfSome answer IsSound }
        ensures { (errand : ErrandOf) → IsReady errand self.old 3 → Answers errand (λ more last. subscribed last errand count number answer more)
            (outlets (K.given sink.old) (O.given out.old) (K.faults sink.old) (O.faults out.old)) (outlets (K.given sink.new) (O.given out.new) (K.faults sink.new) (O.faults out.new)) result self.new }
    {
        let Some(number) = number else {
            return Err(Ending::Finished(Finish::BrokenMessage));
        };
        let Some(answer) = answer else {
            return Err(Ending::Finished(Finish::BrokenMessage));
        };
        print_answer(alloc, 0, &answer, out)?;
        self.begin(alloc, count, Mirror::start(number, answer), sink)
    }

    // Awaits so many changes, or ends the subscription at once.
    fn begin<K: Sink>(
        &mut self,
        alloc: Global,
        count: u32,
        mirror: Mirror,
        sink: &mut K,
    ) -> Result<(), Ending>
        requires ready { (errand : ErrandOf) × IsReady errand self.old 3 }
        requires fresh { mirror.applied ≡ 0 }
        ensures { (errand : ErrandOf) → IsReady errand self.old 3 → (printed : Option (List ℕ)) (prints : ℕ)
            → Answers errand (λ more last. follows last errand count mirror more) (outlets (K.given sink.old) printed (K.faults sink.old) prints) (outlets (K.given sink.new) printed (K.faults sink.new) prints) result self.new }
    {
        if count == 0 {
            return self.unsubscribe(alloc, mirror.subscription(), sink);
        }
        self.stage = Stage::Following {
            left: count,
            mirror,
        };
        Ok(())
    }

    // Asks for the end of the subscription of this number.
    fn unsubscribe<K: Sink>(
        &mut self,
        alloc: Global,
        number: u64,
        sink: &mut K,
    ) -> Result<(), Ending>
        requires ready { (errand : ErrandOf) × IsReady errand self.old 3 }
        ensures { (errand : ErrandOf) → IsReady errand self.old 3 → (mirror : Mirroring) → mirror.subscription ≡ number → (printed : Option (List ℕ)) (prints : ℕ)
            → Answers errand (λ more last. follows last errand zero mirror more) (outlets (K.given sink.old) printed (K.faults sink.old) prints) (outlets (K.given sink.new) printed (K.faults sink.new) prints) result self.new }
    {
        let ask = Ask::Unsubscribe(number_text(alloc, number)?);
        request(
            alloc,
            &mut self.client,
            &ask,
            Transaction::Unsubscribe,
            sink,
        )?;
        self.stage = Stage::Unsubscribing(number);
        Ok(())
    }

    // Asks to leave.
    fn leave<K: Sink>(&mut self, alloc: Global, sink: &mut K) -> Result<(), Ending>
        requires ready { (errand : ErrandOf) × (number : ℕ) × IsReady errand self.old number × (number < 2 ^ 63) }
        ensures { (errand : ErrandOf) (number : ℕ) → IsReady errand self.old number → (printed : Option (List ℕ)) (prints : ℕ)
            → Answers errand (λ more last. leaves last errand number more) (outlets (K.given sink.old) printed (K.faults sink.old) prints) (outlets (K.given sink.new) printed (K.faults sink.new) prints) result self.new }
    {
        request(
            alloc,
            &mut self.client,
            &Ask::Leave,
            Transaction::Leave,
            sink,
        )?;
        self.stage = Stage::Leaving;
        Ok(())
    }
}
