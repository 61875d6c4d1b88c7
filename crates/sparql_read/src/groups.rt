//! The groups of a query, element by element.
ghost use Rattle.std.specs.Prelude.{◌≡◌, Some, if◌then◌else◌, IfOk, OnOk};
ghost use Rattle.sparql_algebra.specs.declared.algebra.Algebra.TheVariants.{Join, LeftJoin};
ghost use Rattle.sparql_text.specs.Translation.{is_empty_bgp, join, filtered};
ghost use Rattle.sparql_read.specs.Drafting.{blank_group, settled, broken, united, with_group, around};

use crate::draft::{Inside, Role};
use m3_terms::NoMemory;
use sparql_algebra::{Algebra, Expr, PatternList};
use sqlite_items::Boxed;
use std::alloc::Global;
use std::mem;

/// A group before its first token.
pub(crate) fn blank_group(alloc: Global) -> Inside
    ensures { result ≡ blank_group }
{
    Inside {
        before: Algebra::Bgp(PatternList::new(alloc)),
        run: PatternList::new(alloc),
        conditions: None,
        alternatives: None,
        next: Role::Element,
    }
}

/// Whether this is the empty BGP.
fn is_empty_bgp(pattern: &Algebra) -> bool
    ensures { result ≡ is_empty_bgp pattern.now }
{
    match pattern {
        Algebra::Bgp(run) => run.is_empty(),
        Algebra::Join(_, _) => false,
        Algebra::Union(_, _) => false,
        Algebra::LeftJoin(_, _, _) => false,
        Algebra::Filter(_, _) => false,
    }
}

/// A Join of two patterns.
fn joined(alloc: Global, a: Algebra, b: Algebra) -> Result<Algebra, NoMemory>
    ensures { IfOk result (λ pattern. pattern ≡ Join a b) }
{
    Ok(Algebra::Join(Boxed::new(alloc, a)?, Boxed::new(alloc, b)?))
}

/// Makes a Join of an element and those before it.
fn add_join(alloc: Global, before: &mut Algebra, element: Algebra) -> Result<(), NoMemory>
    ensures { OnOk result (before.new ≡ Join before.old element) }
{
    let others = mem::replace(before, Algebra::Bgp(PatternList::new(alloc)));
    *before = joined(alloc, others, element)?;
    Ok(())
}

/// Joins an element to those before it, of which there are some.
fn add_behind(alloc: Global, before: &mut Algebra, element: Algebra) -> Result<(), NoMemory>
    ensures { OnOk result (before.new ≡ (if is_empty_bgp element then before.old else Join before.old element)) }
{
    if is_empty_bgp(&element) {
        drop(element);
        Ok(())
    } else {
        add_join(alloc, before, element)
    }
}

/// Joins an element to those before it; of the empty BGP and another the other is left.
fn add_element(alloc: Global, before: &mut Algebra, element: Algebra) -> Result<(), NoMemory>
    ensures { OnOk result (before.new ≡ join before.old element) }
{
    if is_empty_bgp(before) {
        *before = element;
        Ok(())
    } else {
        add_behind(alloc, before, element)
    }
}

/// Makes the groups that stand last in a group an element, since no UNION follows.
pub(crate) fn settle(alloc: Global, group: &mut Inside) -> Result<(), NoMemory>
    ensures { OnOk result (group.new ≡ settled group.old) }
{
    match group.alternatives.take() {
        None => Ok(()),
        Some(a) => add_element(alloc, &mut group.before, a),
    }
}

/// Makes the triple patterns that stand last in a group, or the groups that do, an element.
fn break_off(alloc: Global, group: &mut Inside) -> Result<(), NoMemory>
    ensures { OnOk result (group.new ≡ broken group.old) }
{
    settle(alloc, group)?;
    let run = mem::replace(&mut group.run, PatternList::new(alloc));
    add_element(alloc, &mut group.before, Algebra::Bgp(run))
}

/// Makes what stands last an element before a group begins, unless UNION joins it to that.
pub(crate) fn around(alloc: Global, group: &mut Inside) -> Result<(), NoMemory>
    ensures { OnOk result (group.new ≡ around group.old group.old.next) }
{
    match group.next {
        Role::Union => Ok(()),
        Role::Element => break_off(alloc, group),
        Role::Optional => break_off(alloc, group),
    }
}

/// A Filter, where there is a condition.
fn filtered(alloc: Global, conditions: Option<Expr>, pattern: Algebra) -> Result<Algebra, NoMemory>
    ensures { IfOk result (λ kept. kept ≡ filtered conditions pattern) }
{
    match conditions {
        None => Ok(pattern),
        Some(condition) => Ok(Algebra::Filter(condition, Boxed::new(alloc, pattern)?)),
    }
}

/// Groups are joined by UNION.
fn united(alloc: Global, groups: Option<Algebra>, group: Algebra) -> Result<Algebra, NoMemory>
    ensures { IfOk result (λ union. union ≡ united groups group) }
{
    match groups {
        None => Ok(group),
        Some(others) => Ok(Algebra::Union(Boxed::new(alloc, others)?, Boxed::new(alloc, group)?)),
    }
}

/// A LeftJoin of two patterns.
fn left_joined(
    alloc: Global,
    a: Algebra,
    b: Algebra,
    conditions: Option<Expr>,
) -> Result<Algebra, NoMemory>
    ensures { IfOk result (λ pattern. pattern ≡ LeftJoin a b conditions) }
{
    Ok(Algebra::LeftJoin(Boxed::new(alloc, a)?, Boxed::new(alloc, b)?, conditions))
}

/// A LeftJoin of what stands before it.
fn add_optional(
    alloc: Global,
    before: &mut Algebra,
    pattern: Algebra,
    conditions: Option<Expr>,
) -> Result<(), NoMemory>
    ensures { OnOk result (before.new ≡ LeftJoin before.old pattern conditions) }
{
    let others = mem::replace(before, Algebra::Bgp(PatternList::new(alloc)));
    *before = left_joined(alloc, others, pattern, conditions)?;
    Ok(())
}

/// A group comes that may yet be joined to others by UNION.
fn add_alternative(
    alloc: Global,
    groups: &mut Option<Algebra>,
    pattern: Algebra,
    conditions: Option<Expr>,
) -> Result<(), NoMemory>
    ensures { OnOk result (groups.new ≡ Some (united groups.old (filtered conditions pattern))) }
{
    let group = filtered(alloc, conditions, pattern)?;
    *groups = Some(united(alloc, groups.take(), group)?);
    Ok(())
}

/// A group in a group was read: what its elements make, and its conditions.
fn with_group(
    alloc: Global,
    group: &mut Inside,
    pattern: Algebra,
    conditions: Option<Expr>,
) -> Result<(), NoMemory>
    ensures { OnOk result (group.new ≡ with_group group.old group.old.next pattern conditions) }
{
    let role = mem::replace(&mut group.next, Role::Element);
    match role {
        Role::Optional => add_optional(alloc, &mut group.before, pattern, conditions),
        Role::Element => add_alternative(alloc, &mut group.alternatives, pattern, conditions),
        Role::Union => add_alternative(alloc, &mut group.alternatives, pattern, conditions),
    }
}

/// A group ends in another.
pub(crate) fn close_into(
    alloc: Global,
    inner: &mut Inside,
    group: &mut Inside,
) -> Result<(), NoMemory>
    ensures { OnOk result (group.new ≡ with_group group.old group.old.next (broken inner.old).before inner.old.conditions) }
{
    break_off(alloc, inner)?;
    let pattern = mem::replace(&mut inner.before, Algebra::Bgp(PatternList::new(alloc)));
    let conditions = inner.conditions.take();
    with_group(alloc, group, pattern, conditions)
}
