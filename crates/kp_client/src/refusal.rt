//! Why a mirror refuses a difference.
ghost use Rattle.std.specs.Prelude.{◌≡◌, ◌+◌, ◌<◌, ◌^◌};
ghost use Rattle.answer_bodies.specs.Differences.{IsInOrder, HaveOneForm};
ghost use Rattle.kp_client.specs.Applying.{IsWhy, IsFound};
ghost use Rattle.kp_client.specs.Mirroring.{conflict as conflict_of, form_of, refusal as refusal_of};
ghost use Rattle.kp_client.specs.declared.fault.MirrorFault.TheVariants as fault;
ghost use Rattle.std.specs.Prelude.{Some};

use crate::MirrorFault;
use crate::form::{form, have_one_form};
use crate::rows::{first_missing, first_present};
use answer_bodies::{Answer, Difference};
use std::alloc::Global;

/// That a side of a difference has another form than the answer.
pub fn other_form(alloc: Global, answer: &Answer, side: &Answer) -> MirrorFault
    ensures { IsWhy (Some (fault.OtherForm (form_of answer.now) (form_of side.now))) result }
{
    let Ok(want) = form(alloc, answer) else {
        return MirrorFault::NoMemory;
    };
    let Ok(got) = form(alloc, side) else {
        return MirrorFault::NoMemory;
    };
    MirrorFault::OtherForm { want, got }
}

/// The first row that is obsolete and not in the answer, or else the first that is added and in it.
pub fn conflict(alloc: Global, answer: &Answer, difference: &Difference) -> Option<MirrorFault>
    requires order { IsInOrder answer.now }
    requires obsolete { HaveOneForm answer.now difference.now.obsolete }
    requires added { HaveOneForm answer.now difference.now.added }
    ensures { IsFound (conflict_of answer.now difference.now) result }
{
    match first_missing(alloc, answer, &difference.obsolete) {
        Ok(Some(row)) => return Some(MirrorFault::Conflict { row }),
        Ok(None) => {}
        Err(_) => return Some(MirrorFault::NoMemory),
    }
    match first_present(alloc, answer, &difference.added) {
        Ok(Some(row)) => Some(MirrorFault::Conflict { row }),
        Ok(None) => None,
        Err(_) => Some(MirrorFault::NoMemory),
    }
}
