//! Mappings and lists of solutions.
use m3_intern::Interner;
use m3_terms::TermId;
use sparql_algebra::{
    Expr, IdRows, Mapping, RowsFault, Var, VarList, filter_rows, join_rows, left_join_rows,
    project_rows, union_rows,
};
use std::alloc::Global;
use std::test::Fail;

// The list of one solution, which binds one variable.
fn one(alloc: Global, var: u8, term: u32) -> Result<IdRows, Fail> {
    let mut row = Mapping::new(alloc);
    if row.get(Var(var & 15)).is_some() {
        return Err("bound".into());
    }
    row.bind(Var(var & 15), TermId(term))?;
    let mut rows = IdRows::new(alloc);
    if rows.contains(&row) {
        return Err("there".into());
    }
    rows.add(row)?;
    Ok(rows)
}

#[test]
fn a_mapping_binds_variables_in_any_order(rt: HostRuntime) -> Result<(), Fail> {
    let mut mapping = Mapping::new(rt.alloc());
    for (var, term) in [(2, 9), (0, 7), (4, 1), (1, 8), (3, 6)] {
        if mapping.get(Var(var)).is_some() {
            return Err("bound".into());
        }
        mapping.bind(Var(var), TermId(term))?;
    }
    assert_eq!(rt; mapping.get(Var(0)), Some(TermId(7)));
    assert_eq!(rt; mapping.get(Var(4)), Some(TermId(1)));
    assert_eq!(rt; mapping.get(Var(5)), None);
    Ok(())
}

#[test]
fn rows_are_kept_in_the_order_of_their_adding(rt: HostRuntime) -> Result<(), Fail> {
    let alloc = rt.alloc();
    let mut rows = IdRows::new(alloc);
    assert!(rt; rows.is_empty());
    rows.add_three(alloc, TermId(1), TermId(2), TermId(3))?;
    assert_eq!(rt; rows.len(), 1);
    let empty = Mapping::new(alloc);
    if rows.contains(&empty) {
        return Err("there".into());
    }
    rows.add(empty)?;
    assert_eq!(rt; rows.len(), 2);
    let row = rows.get(0).ok_or("no row")?;
    assert_eq!(rt; row.get(Var(2)), Some(TermId(3)));
    assert!(rt; rows.get(2).is_none());
    Ok(())
}

#[test]
fn rows_are_added_where_room_was_reserved(rt: HostRuntime) -> Result<(), Fail> {
    let alloc = rt.alloc();
    let mut first = Mapping::new(alloc);
    first.bind(Var(0), TermId(7))?;
    let mut rows = one(alloc, 1, 8)?;
    if rows.contains(&first) {
        return Err("there".into());
    }
    rows.reserve(2)?;
    let Ok(()) = rows.add(first) else {
        unreachable!()
    };
    let second = Mapping::new(alloc);
    if rows.contains(&second) {
        return Err("there".into());
    }
    let Ok(()) = rows.add(second) else {
        unreachable!()
    };
    assert_eq!(rt; rows.len(), 3);
    Ok(())
}

#[test]
fn rows_are_taken_out_from_the_end(rt: HostRuntime) -> Result<(), Fail> {
    let alloc = rt.alloc();
    let mut rows = IdRows::new(alloc);
    assert!(rt; rows.pop().is_none());
    rows.add_three(alloc, TermId(1), TermId(2), TermId(3))?;
    rows.add(Mapping::new(alloc))?;
    let last = rows.pop().ok_or("no row")?;
    assert_eq!(rt; last.get(Var(0)), None);
    assert_eq!(rt; rows.len(), 1);
    Ok(())
}

#[test]
fn solutions_of_different_variables_are_joined_within_a_limit(rt: HostRuntime) -> Result<(), Fail> {
    let alloc = rt.alloc();
    let left = one(alloc, 0, 7)?;
    let right = one(alloc, 1, 8)?;
    let refused = join_rows(alloc, &left, &right, 0).err();
    assert_eq!(rt; refused, Some(RowsFault::TooMany));
    let joined = join_rows(alloc, &left, &right, 1)?;
    let row = joined.get(0).ok_or("no row")?;
    assert_eq!(rt; row.get(Var(0)), Some(TermId(7)));
    assert_eq!(rt; row.get(Var(1)), Some(TermId(8)));
    Ok(())
}

#[test]
fn a_solution_without_a_compatible_one_stays(rt: HostRuntime) -> Result<(), Fail> {
    let alloc = rt.alloc();
    let left = one(alloc, 0, 7)?;
    let right = one(alloc, 0, 8)?;
    let table = Interner::new(alloc, 0);
    let both = union_rows(alloc, &left, &right, 2)?;
    assert_eq!(rt; both.len(), 2);
    let stays = left_join_rows(alloc, &left, &right, None, &table, 1)?;
    assert!(rt; stays.get(0) == left.get(0));
    assert!(rt; join_rows(alloc, &left, &right, 1)?.is_empty());
    Ok(())
}

#[test]
fn a_solution_is_filtered_and_projected(rt: HostRuntime) -> Result<(), Fail> {
    let alloc = rt.alloc();
    let rows = one(alloc, 0, 7)?;
    let table = Interner::new(alloc, 0);
    let unbound = filter_rows(alloc, &Expr::Bound(Var(1)), &rows, &table, 1)?;
    assert!(rt; unbound.is_empty());
    let none = project_rows(alloc, &rows, &VarList::new(alloc))?;
    assert!(rt; none.contains(&Mapping::new(alloc)));
    assert_eq!(rt; none.len(), 1);
    Ok(())
}
