//! The changes of a subscription.
ghost use Rattle.ssap_shape.specs.Sendable.{IsSoundIncoming};

use crate::fault::Fault;
use crate::link::Link;
use crate::printing::print_answer;
use kp_client::Mirror;
use sib_io::{Sink, Source};
use ssap_shape::{Incoming, Indication};
use std::alloc::Global;

/// Prints the answer, and again after each change, until the broker's bytes end.
pub fn follow<S: Source + Drop, O: Sink>(
    alloc: Global,
    link: &mut Link<S>,
    mirror: Mirror,
    out: &mut O,
) -> Result<(), Fault> {
    let mut mirror = mirror;
    print_answer(alloc, &mirror, out)?;
    for _ in 0..u64::MAX {
        let Some(incoming) = link.next(alloc)? else {
            return Ok(());
        };
        change(alloc, &mut mirror, incoming)?;
        print_answer(alloc, &mirror, out)?;
    }
    Err(Fault::Over)
}

// Applies a change. The mirror refuses one of another subscription, a gap, and one that does not fit.
fn change(alloc: Global, mirror: &mut Mirror, incoming: Incoming) -> Result<(), Fault>
    requires { IsSoundIncoming incoming }
{
    let Incoming::Indication(indication) = incoming else {
        return Err(Fault::Stray);
    };
    let Indication::Changes {
        heads: _,
        subscription,
        sequence,
        difference,
    } = indication
    else {
        return Err(Fault::Over);
    };
    if mirror.applied() > u64::MAX / 4 {
        return Err(Fault::Over);
    }
    mirror.apply(alloc, subscription, sequence, &difference)?;
    Ok(())
}
