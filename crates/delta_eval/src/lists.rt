//! Changes of lists of rows, place by place.
ghost use Rattle.std.specs.Prelude.{◌≡◌, length, IfOk, IsOk, OnOk};
ghost use Rattle.std.specs.List.{AllZip};
ghost use Rattle.delta_eval.specs.Changed.{AllInThrees, IsChangeOf, IsDifference, HasRoomFor, HasSameRows, LeadsTo};

use crate::apply::apply;
use crate::changed::Changed;
use m3_terms::NoMemory;
use sparql_algebra::IdRows;
use std::alloc::Global;

// The difference of the two lists in each place.
pub(crate) fn differences(
    alloc: Global,
    old: &[IdRows],
    new: &[IdRows],
) -> Result<Vec<Changed>, NoMemory>
    requires { length old.now ≡ length new.now }
    ensures { IfOk result (λ changes. AllInThrees IsDifference old.now changes.items new.now) }
{
    let mut changes = Vec::new(alloc);
    for at in 0..old.len() {
        changes.push(Changed::between(alloc, &old[at], &new[at])?)?;
    }
    Ok(changes)
}

// Makes room in each list for the change in its place.
pub(crate) fn reserve_all(lists: &mut Vec<IdRows>, changes: &[Changed]) -> Result<(), NoMemory>
    requires { length lists.old.items ≡ length changes.now }
    ensures rows { AllZip HasSameRows lists.old.items lists.new.items }
    ensures room { OnOk result (AllZip HasRoomFor lists.new.items changes.now) }
    ensures succeeds { AllZip HasRoomFor lists.old.items changes.now → IsOk result }
{
    for (at, change) in changes.iter().enumerate() {
        lists[at].reserve(change.added.len())?;
    }
    Ok(())
}

// Makes each change to the list in its place, from the last one on.
pub(crate) fn apply_all(lists: &mut Vec<IdRows>, mut changes: Vec<Changed>)
    requires changes { AllZip IsChangeOf lists.old.items changes.items }
    requires room { AllZip HasRoomFor lists.old.items changes.items }
    ensures { AllInThrees LeadsTo lists.old.items changes.items lists.new.items }
{
    while let Some(change) = changes.pop() {
        apply(&mut lists[changes.len()], change);
    }
}
