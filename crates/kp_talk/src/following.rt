//! The changes of a subscription, as a party to a talk takes them.
ghost use Rattle.std.specs.Prelude.{◌≡◌, ℕ, ◌+◌, ◌<◌, ◌^◌, ◌∷◌, List, Option};
ghost use Rattle.ssap_shape.specs.Sendable.{IsSoundIncoming, IsSoundIndication};
ghost use Rattle.ssap_shape.specs.declared.reply.Incoming.TheVariants as incomings;
ghost use Rattle.ssap_shape.specs.declared.reply.Indication.TheVariants.{Changes};
ghost use Rattle.answer_bodies.specs.declared.answer.Difference.{Difference as Differing};
ghost use Rattle.ssap_items.specs.declared.heads.Heads.{Heads};
ghost use Rattle.answer_bodies.specs.Laws.{IsSound};
ghost use Rattle.kp_talk.specs.Talk.{follows};
ghost use Rattle.kp_talk.specs.Saying.{outlets, FollowsOn, IsBroken};
ghost use Rattle.kp_talk.specs.declared.errand.Errand.{Errand};

use crate::lines::print_answer;
use crate::{Ending, Finish};
use answer_bodies::Difference;
use kp_client::{Mirror, MirrorFault};
use sib_io::Sink;
use ssap_shape::{Incoming, Indication};
use std::alloc::Global;

/// Takes what a party is told that awaits so many changes of a subscription, and says whether more are awaited then. The
/// answer behind a change is printed; the end of another subscription is passed over.
pub(crate) fn follow<O: Sink>(
    alloc: Global,
    left: &mut u32,
    mirror: &mut Mirror,
    incoming: Incoming,
    out: &mut O,
) -> Result<bool, Ending>
    requires left { 0 < left.old }
    requires count { mirror.old.applied + left.old < 2 ^ 63 }
    requires sound { IsSoundIncoming incoming }
    ensures same { mirror.new.subscription ≡ mirror.old.subscription }
    ensures follows { (errand : Errand) (written : Option (List ℕ)) (writes : ℕ) → FollowsOn errand (λ more last. follows last errand left.old mirror.old (incoming ∷ more))
        (outlets written (O.given out.old) writes (O.faults out.old)) (outlets written (O.given out.new) writes (O.faults out.new)) result left.new mirror.new }
{
    match incoming {
        Incoming::Indication(indication) => indicated(alloc, left, mirror, indication, out),
        Incoming::Confirm(_) => Err(Ending::Finished(Finish::BrokenMessage)),
        Incoming::Other { heads: _ } => Err(Ending::Finished(Finish::BrokenMessage)),
    }
}

// Takes an indication.
fn indicated<O: Sink>(
    alloc: Global,
    left: &mut u32,
    mirror: &mut Mirror,
    indication: Indication,
    out: &mut O,
) -> Result<bool, Ending>
    requires left { 0 < left.old }
    requires count { mirror.old.applied + left.old < 2 ^ 63 }
    requires sound { IsSoundIndication indication }
    ensures same { mirror.new.subscription ≡ mirror.old.subscription }
    ensures follows { (errand : Errand) (written : Option (List ℕ)) (writes : ℕ) → FollowsOn errand (λ more last. follows last errand left.old mirror.old (incomings.Indication indication ∷ more))
        (outlets written (O.given out.old) writes (O.faults out.old)) (outlets written (O.given out.new) writes (O.faults out.new)) result left.new mirror.new }
{
    match indication {
        Indication::Changes {
            heads: _,
            subscription,
            sequence,
            difference,
        } => change(
            alloc,
            left,
            mirror,
            subscription,
            sequence,
            &difference,
            out,
        ),
        Indication::Ended {
            heads: _,
            subscription,
            status,
        } => {
            if subscription == mirror.subscription() {
                return Err(Ending::Finished(Finish::Ended(status)));
            }
            Ok(true)
        }
    }
}

// Applies a change, and prints the answer behind it.
fn change<O: Sink>(
    alloc: Global,
    left: &mut u32,
    mirror: &mut Mirror,
    subscription: u64,
    sequence: u64,
    difference: &Difference,
    out: &mut O,
) -> Result<bool, Ending>
    requires left { 0 < left.old }
    requires count { mirror.old.applied + left.old < 2 ^ 63 }
    requires added { IsSound difference.now.added }
    requires obsolete { IsSound difference.now.obsolete }
    ensures same { mirror.new.subscription ≡ mirror.old.subscription }
    ensures follows { (errand : Errand) (heads : Heads) (written : Option (List ℕ)) (writes : ℕ)
        → FollowsOn errand (λ more last. follows last errand left.old mirror.old (incomings.Indication (Changes heads subscription sequence difference.now) ∷ more))
        (outlets written (O.given out.old) writes (O.faults out.old)) (outlets written (O.given out.new) writes (O.faults out.new)) result left.new mirror.new }
{
    match mirror.apply(alloc, subscription, sequence, difference) {
        Ok(()) => {}
        Err(fault) => return Err(broken(fault)),
    }
    print_answer(alloc, mirror.applied(), mirror.answer(), out)?;
    *left -= 1;
    Ok(*left > 0)
}

// How a talk ends at a change that is refused.
fn broken(fault: MirrorFault) -> Ending
    ensures { IsBroken fault result }
{
    match fault {
        MirrorFault::OtherSubscription { want, got } => {
            Ending::Finished(Finish::BrokenSubscription { want, got })
        }
        MirrorFault::Gap { want, got } => Ending::Finished(Finish::BrokenGap { want, got }),
        MirrorFault::OtherForm { want: _, got: _ } => Ending::Finished(Finish::BrokenForm),
        MirrorFault::Conflict { row: _ } => Ending::Finished(Finish::BrokenConflict),
        MirrorFault::NoMemory => Ending::NoMemory,
    }
}
