//! Tests of tables.
use sat_base::Table;
use std::alloc::AllocError;
use std::test::*;

/// Sets a value at the first place that a new table has in its tree, and returns the number of near places.
fn near_count_with(table: &mut Table<u32>) -> Result<usize, AllocError> {
    table.set(1 << 18, 5, 0)?;
    Ok(table.near_count())
}

#[test]
fn granted_places_are_near(rt: HostRuntime) {
    let mut table = Table::new(rt.alloc());
    table.grant(2);
    assert!(rt; near_count_with(&mut table) == Ok(262_146));
    assert!(rt; (table.get(1 << 18, 0), table.get(3, 0)) == (5, 0));
}

#[test]
fn far_places_are_in_the_tree(rt: HostRuntime) {
    let mut table = Table::new(rt.alloc());
    assert!(rt; near_count_with(&mut table) == Ok(0));
    assert!(rt; (table.get(1 << 18, 0), table.get(3, 0)) == (5, 0));
}
