//! The right solutions with which a left one may be compatible, found by the variables that every solution binds.
ghost use Rattle.std.specs.Prelude.{◌≡◌, ◌&&◌, IfOk, OnOk};
ghost use Rattle.std.specs.HashMap.{get};
ghost use Rattle.sparql_algebra.specs.Solutions.{solution_eq};
ghost use Rattle.sparql_algebra.specs.Projected.{projected};
ghost use Rattle.sparql_algebra.specs.Merged.{IsRising};
ghost use Rattle.sparql_algebra.specs.TermSolutions.{id_var};
ghost use Rattle.sparql_algebra.specs.Near.{group_at, HasJoined, IsWithout, AreGrouped, BindAll, all_bound};

use crate::{IdRows, Mapping, Var, VarList};
use indexmap::IndexMap;
use m3_terms::{Items, NoMemory};
use std::alloc::Global;

type Groups = IndexMap<Mapping, Items<Mapping>>;

// The solutions of a list in groups: those of one group bind the columns alike.
#[derive(Drop)]
pub(crate) struct Near {
    columns: VarList,
    groups: Groups,
}

impl Near {
    // The solutions of the right side, in groups by the variables that every solution of both sides binds.
    pub(crate) fn new(alloc: Global, left: &IdRows, right: &IdRows) -> Result<Near, NoMemory>
        ensures grouped { IfOk result (λ near. AreGrouped near.columns right.now.rows (get solution_eq near.groups)) }
        ensures left { IfOk result (λ near. BindAll near.columns left.now.rows) }
        ensures right { IfOk result (λ near. BindAll near.columns right.now.rows) }
    {
        let columns = shared(alloc, left.as_slice(), right.as_slice())?;
        let groups = grouped(alloc, right.as_slice(), &columns)?;
        Ok(Near { columns, groups })
    }

    // The solutions of the group to which a left one belongs.
    pub(crate) fn of(&self, left: &Mapping) -> Result<&[Mapping], NoMemory>
        ensures rows { IfOk result (λ rows. rows.now ≡ group_at (get solution_eq self.now.groups) (projected self.now.columns left.now)) }
        ensures rising { IsRising id_var left.now }
    {
        let _rising = left.as_slice();
        let key = left.project(&self.columns)?;
        Ok(group(&self.groups, &key))
    }
}

fn group<'a>(groups: &'a Groups, key: &Mapping) -> &'a [Mapping]
    ensures { result.now ≡ group_at (get solution_eq groups.now) key.now }
{
    match groups.get(key) {
        None => &[],
        Some(rows) => rows.as_slice(),
    }
}

// Some rows in groups, each under its projection to the columns.
fn grouped(alloc: Global, rows: &[Mapping], columns: &VarList) -> Result<Groups, NoMemory>
    ensures { IfOk result (λ groups. AreGrouped columns.now rows.now (get solution_eq groups)) }
{
    let mut groups = IndexMap::new(alloc);
    for row in rows {
        let key = row.project(columns)?;
        join_group(alloc, &mut groups, key, row.copy()?)?;
    }
    Ok(groups)
}

// Appends a row to the group under a key.
fn join_group(
    alloc: Global,
    groups: &mut Groups,
    key: Mapping,
    row: Mapping,
) -> Result<(), NoMemory>
    ensures { OnOk result (HasJoined (get solution_eq groups.old) key row (get solution_eq groups.new)) }
{
    let mut group = take_group(alloc, groups, &key);
    group.push(row)?;
    groups.insert(key, group)?;
    Ok(())
}

// Takes the group under a key out.
fn take_group(alloc: Global, groups: &mut Groups, key: &Mapping) -> Items<Mapping>
    ensures group { result ≡ group_at (get solution_eq groups.old) key.now }
    ensures others { IsWithout (get solution_eq groups.old) key.now (get solution_eq groups.new) }
{
    match groups.swap_remove(key) {
        None => Items::new(alloc),
        Some(group) => group,
    }
}

// Variables that each row of both sides binds: those of the first row that are such.
fn shared(alloc: Global, left: &[Mapping], right: &[Mapping]) -> Result<VarList, NoMemory>
    ensures left { IfOk result (λ columns. BindAll columns left.now) }
    ensures right { IfOk result (λ columns. BindAll columns right.now) }
{
    let mut columns = VarList::new(alloc);
    let Some(first) = left.first() else {
        return Ok(columns);
    };
    for binding in first.as_slice() {
        if is_shared(left, right, binding.var) {
            columns.push(binding.var)?;
        }
    }
    Ok(columns)
}

// Whether each row of both sides binds a variable.
fn is_shared(left: &[Mapping], right: &[Mapping], var: Var) -> bool
    ensures { result ≡ (all_bound left.now var && all_bound right.now var) }
{
    all_bind(left, var) && all_bind(right, var)
}

// Whether each row binds a variable.
fn all_bind(rows: &[Mapping], var: Var) -> bool
    ensures { result ≡ all_bound rows.now var }
{
    rows.iter().all(|row| row.get(var).is_some())
}
