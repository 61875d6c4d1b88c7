ghost use Rattle.std.specs.Prelude.{◌≡◌, []};
ghost use Rattle.answer_bodies.specs.declared.answer.Answer.TheVariants.{Triples};
ghost use Rattle.kp_client.specs.Mirroring.{mirror_of};

use answer_bodies::{Answer, Difference};
use kp_client::{Mirror, MirrorFault};
use m3_terms::Triples;
use std::alloc::Global;
use std::test::Fail;

fn nothing(alloc: Global) -> Difference
    ensures { result ≡ record { added = Triples []; obsolete = Triples [] } }
{
    Difference {
        added: Answer::Triples(Triples::new(alloc)),
        obsolete: Answer::Triples(Triples::new(alloc)),
    }
}

/// A mirror of subscription 1, without a triple.
fn mirror(alloc: Global) -> Mirror
    ensures { result ≡ mirror_of 1 (Triples []) }
{
    Mirror::start(1, Answer::Triples(Triples::new(alloc)))
}

/// What the mirror says of a difference in which nothing differs, of this subscription and under this number.
fn word(alloc: Global, subscription: u64, sequence: u64) -> &'static str {
    let mut mirror = mirror(alloc);
    match mirror.apply(alloc, subscription, sequence, &nothing(alloc)) {
        Ok(()) => "applied",
        Err(MirrorFault::OtherSubscription { .. }) => "other subscription",
        Err(MirrorFault::Gap { .. }) => "gap",
        Err(MirrorFault::OtherForm { .. }) => "other form",
        Err(MirrorFault::Conflict { .. }) => "conflict",
        Err(MirrorFault::NoMemory) => "out of memory",
    }
}

#[test]
fn a_mirror_takes_the_next_difference_of_its_subscription(rt: HostRuntime) -> Result<(), Fail> {
    assert_eq!(rt; word(rt.alloc(), 1, 1), "applied");
    assert_eq!(rt; word(rt.alloc(), 2, 1), "other subscription");
    assert_eq!(rt; word(rt.alloc(), 1, 2), "gap");
    Ok(())
}
