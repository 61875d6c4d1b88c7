ghost use Rattle.std.specs.Prelude.{◌≡◌, ◌<◌, ◌^◌};
ghost use Rattle.answer_bodies.specs.Differences.{IsInOrder};
ghost use Rattle.answer_bodies.specs.Writing.{IsFull};
ghost use Rattle.kp_client.specs.Applying.{IsFound, Applies};
ghost use Rattle.kp_client.specs.Mirroring.{mirror_of, refusal as refusal_of};

use crate::MirrorFault;
use crate::form::have_one_form;
use crate::refusal::{conflict, other_form};
use answer_bodies::{Answer, Difference};
use std::alloc::Global;
use std::marker::Model;

/// The answer of a subscription as its indications leave it, in order and with full rows.
#[derive(Debug, Drop)]
pub struct Mirror {
    subscription: u64,
    applied: u64,
    answer: Answer,
}

impl Model for Mirror {
    ghost use Rattle.answer_bodies.specs.Differences.{IsInOrder};
    ghost use Rattle.answer_bodies.specs.Writing.{IsFull};
    ghost use Rattle.kp_client.specs.Mirroring.{Mirroring};

    ghost Value = { Mirroring };

    ghost view = { λ m. record { subscription = m.subscription; applied = m.applied; answer = m.answer } };

    ghost invariant = { λ m. IsInOrder m.answer × IsFull m.answer };
}

impl Mirror {
    /// The mirror of a subscription whose confirm brought this answer. It takes no memory.
    pub fn start(subscription: u64, first: Answer) -> Mirror
        requires order { IsInOrder first }
        requires full { IsFull first }
        ensures { result ≡ mirror_of subscription first }
    {
        Mirror {
            subscription,
            applied: 0,
            answer: first,
        }
    }

    /// The number of the subscription.
    pub fn subscription(&self) -> u64
        ensures { result ≡ self.now.subscription }
    {
        self.subscription
    }

    /// How many differences were applied.
    pub fn applied(&self) -> u64
        ensures { result ≡ self.now.applied }
    {
        self.applied
    }

    /// The answer after the differences that were applied.
    pub fn answer(&self) -> &Answer
        ensures value { result.now ≡ self.now.answer }
        ensures order { IsInOrder result.now }
        ensures full { IsFull result.now }
    {
        &self.answer
    }

    /// The first reason to refuse a difference, or none.
    fn refusal(
        &self,
        alloc: Global,
        subscription: u64,
        sequence: u64,
        difference: &Difference,
    ) -> Option<MirrorFault>
        requires { self.now.applied < 2 ^ 63 }
        ensures { IsFound (refusal_of self.now subscription sequence difference.now) result }
    {
        let want = self.subscription;
        if subscription != want {
            return Some(MirrorFault::OtherSubscription {
                want,
                got: subscription,
            });
        }
        let want = self.applied + 1;
        if sequence != want {
            return Some(MirrorFault::Gap {
                want,
                got: sequence,
            });
        }
        if !have_one_form(&self.answer, &difference.obsolete) {
            return Some(other_form(alloc, &self.answer, &difference.obsolete));
        }
        if !have_one_form(&self.answer, &difference.added) {
            return Some(other_form(alloc, &self.answer, &difference.added));
        }
        conflict(alloc, &self.answer, difference)
    }

    /// Takes away what is obsolete and puts what is added in its place. Of the reasons to refuse a difference the first
    /// that applies is told: `OtherSubscription` where its subscription is another; `Gap` where its number is not the next
    /// one, which is 1 behind the first answer; `OtherForm` where a side has another form than the answer; `Conflict` with
    /// the first obsolete row that is not there, or else the first added row that is there. After any error the mirror is
    /// unchanged.
    pub fn apply(
        &mut self,
        alloc: Global,
        subscription: u64,
        sequence: u64,
        difference: &Difference,
    ) -> Result<(), MirrorFault>
        requires count { self.old.applied < 2 ^ 63 }
        requires added_order { IsInOrder difference.now.added }
        requires obsolete_order { IsInOrder difference.now.obsolete }
        requires added_full { IsFull difference.now.added }
        requires obsolete_full { IsFull difference.now.obsolete }
        ensures applies { Applies self.old subscription sequence difference.now result self.new }
    {
        match self.refusal(alloc, subscription, sequence, difference) {
            Some(fault) => return Err(fault),
            None => {}
        }
        match self.answer.fold(alloc, difference) {
            Ok(()) => {}
            Err(_) => return Err(MirrorFault::NoMemory),
        }
        self.applied += 1;
        Ok(())
    }
}
