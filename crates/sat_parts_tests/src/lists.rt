//! Tests of long clauses by tier, of deletions and of collections.
ghost use Rattle.std.specs.Prelude.{ℕ, ◌≡◌, ◌+◌, ◌<◌, ◌≤◌, OnOk, IfOk, [], ◌∷◌, ◌++◌, length, slice_index_or};
ghost use Rattle.sat_base.specs.values.Literals.{negated};
ghost use Rattle.sat_parts.specs.clause.Db.{DbMatchesBuffer, live_refs};

use sat_base::Lit;
use sat_parts::{
    ClauseDb, ImplGraph, Trail, Watchlists, add_clause, clauses_iter, collect_garbage,
    delete_clause, set_clause_tier,
};
use sat_store::{ClauseAlloc, ClauseHeader, ClauseRef, StoreError, Tier};
use std::alloc::Global;

/// Returns the number of clauses of each tier.
pub fn counts(db: &ClauseDb) -> [usize; 4] {
    [
        db.count_by_tier(Tier::Irred),
        db.count_by_tier(Tier::Core),
        db.count_by_tier(Tier::Mid),
        db.count_by_tier(Tier::Local),
    ]
}

/// Adds a clause over seven variables.
pub fn store(
    clauses: &mut ClauseAlloc,
    db: &mut ClauseDb,
    watchlists: &mut Watchlists,
    tier: Tier,
    lits: &[Lit],
) -> Result<ClauseRef, StoreError>
    requires db { DbMatchesBuffer clauses.old db.old }
    requires room { length watchlists.old.lists ≡ 14 }
    requires long { 3 ≤ length lits.now }
    requires few { length lits.now < 10 }
    requires below { (k : ℕ) → k < 2 → negated (slice_index_or lits.now k 0) < 14 }
    ensures db { OnOk result (DbMatchesBuffer clauses.new db.new) }
    ensures place { IfOk result (λ cref. cref ≡ length clauses.old) }
    ensures size { OnOk result (length clauses.new ≡ length clauses.old + 3 + length lits.now) }
    ensures live { OnOk result (live_refs clauses.new db.new.refs
        ≡ live_refs clauses.old db.old.refs ++ length clauses.old ∷ []) }
    ensures room { OnOk result (length watchlists.new.lists ≡ 14) }
{
    let mut header = ClauseHeader::new();
    header.set_tier(tier);
    let cref = add_clause(clauses, db, watchlists, header, lits)?;
    Ok(cref)
}

/// Adds four clauses, whose offsets are 0, 6, 12 and 18.
pub fn store_four(
    clauses: &mut ClauseAlloc,
    db: &mut ClauseDb,
    watchlists: &mut Watchlists,
) -> Result<(ClauseRef, ClauseRef, ClauseRef, ClauseRef), StoreError>
    requires empty { clauses.old ≡ [] }
    requires db { DbMatchesBuffer clauses.old db.old }
    requires none { live_refs clauses.old db.old.refs ≡ [] }
    requires room { length watchlists.old.lists ≡ 14 }
    ensures db { OnOk result (DbMatchesBuffer clauses.new db.new) }
    ensures live { OnOk result (live_refs clauses.new db.new.refs ≡ 0 ∷ 6 ∷ 12 ∷ 18 ∷ []) }
    ensures places { IfOk result (λ r. (r.0 ≡ 0) × (r.1 ≡ 6) × (r.2 ≡ 12) × (r.3 ≡ 18)) }
{
    let codes = [Lit::from_code(0), Lit::from_code(2), Lit::from_code(4)];
    let a = store(clauses, db, watchlists, Tier::Irred, &codes)?;
    let codes = [Lit::from_code(6), Lit::from_code(9), Lit::from_code(10)];
    let b = store(clauses, db, watchlists, Tier::Core, &codes)?;
    let codes = [Lit::from_code(3), Lit::from_code(4), Lit::from_code(7)];
    let c = store(clauses, db, watchlists, Tier::Mid, &codes)?;
    let codes = [
        Lit::from_code(5),
        Lit::from_code(8),
        Lit::from_code(2),
        Lit::from_code(12),
        Lit::from_code(9),
    ];
    let d = store(clauses, db, watchlists, Tier::Local, &codes)?;
    Ok((a, b, c, d))
}

/// Moves the four clauses to other tiers.
fn move_four(
    clauses: &mut ClauseAlloc,
    db: &mut ClauseDb,
    first: ClauseRef,
    second: ClauseRef,
    third: ClauseRef,
    fourth: ClauseRef,
)
    requires db { DbMatchesBuffer clauses.old db.old }
    requires live { live_refs clauses.old db.old.refs ≡ 0 ∷ 6 ∷ 12 ∷ 18 ∷ [] }
    requires places { (first ≡ 0) × (second ≡ 6) × (third ≡ 12) × (fourth ≡ 18) }
    ensures db { DbMatchesBuffer clauses.new db.new }
    ensures live { live_refs clauses.new db.new.refs ≡ 0 ∷ 6 ∷ 12 ∷ 18 ∷ [] }
{
    set_clause_tier(clauses, db, first, Tier::Irred);
    set_clause_tier(clauses, db, second, Tier::Local);
    set_clause_tier(clauses, db, third, Tier::Local);
    set_clause_tier(clauses, db, fourth, Tier::Core);
}

/// Deletes the first and the third clause.
fn delete_two(
    clauses: &mut ClauseAlloc,
    db: &mut ClauseDb,
    watchlists: &mut Watchlists,
    first: ClauseRef,
    third: ClauseRef,
)
    requires db { DbMatchesBuffer clauses.old db.old }
    requires live { live_refs clauses.old db.old.refs ≡ 0 ∷ 6 ∷ 12 ∷ 18 ∷ [] }
    requires places { (first ≡ 0) × (third ≡ 12) }
    ensures db { DbMatchesBuffer clauses.new db.new }
    ensures live { live_refs clauses.new db.new.refs ≡ 6 ∷ 18 ∷ [] }
{
    delete_clause(clauses, db, watchlists, first);
    delete_clause(clauses, db, watchlists, third);
}

/// Returns the offsets of the first three live clauses.
fn offsets(clauses: &ClauseAlloc, db: &ClauseDb) -> (Option<usize>, Option<usize>, Option<usize>)
    requires { DbMatchesBuffer clauses.now db.now }
{
    let mut live = clauses_iter(clauses, db);
    let first = live.next().map(|cref| cref.offset());
    let second = live.next().map(|cref| cref.offset());
    let third = live.next().map(|cref| cref.offset());
    (first, second, third)
}

/// Returns whether a collection that isn't due changes nothing, and whether a collection removes the deleted clauses
/// once another clause is deleted.
fn collects(
    alloc: Global,
    clauses: &mut ClauseAlloc,
    db: &mut ClauseDb,
    watchlists: &mut Watchlists,
    second: ClauseRef,
) -> Result<bool, StoreError>
    requires db { DbMatchesBuffer clauses.old db.old }
    requires live { live_refs clauses.old db.old.refs ≡ 6 ∷ 18 ∷ [] }
    requires place { second ≡ 6 }
{
    let mut graph = ImplGraph::new(alloc);
    let trail = Trail::new(alloc);
    if db.garbage_size() != 12 || clauses.buffer_size() != 26 {
        return Ok(false);
    }
    collect_garbage(alloc, clauses, db, &mut graph, watchlists, &trail)?;
    if clauses.buffer_size() != 26 {
        return Ok(false);
    }
    delete_clause(clauses, db, watchlists, second);
    if db.garbage_size() != 18 {
        return Ok(false);
    }
    collect_garbage(alloc, clauses, db, &mut graph, watchlists, &trail)?;
    Ok(clauses.buffer_size() == 8 && db.garbage_size() == 0 && db.len() == 1)
}

fn row(
    alloc: Global,
    clauses: &mut ClauseAlloc,
    db: &mut ClauseDb,
    watchlists: &mut Watchlists,
) -> Result<bool, StoreError>
    requires empty { clauses.old ≡ [] }
    requires db { DbMatchesBuffer clauses.old db.old }
    requires none { live_refs clauses.old db.old.refs ≡ [] }
    requires lists { watchlists.old.lists ≡ [] }
{
    watchlists.set_var_count(7)?;
    let (first, second, third, fourth) = store_four(clauses, db, watchlists)?;
    if counts(db) != [1, 1, 1, 1] || clauses.buffer_size() != 26 {
        return Ok(false);
    }
    move_four(clauses, db, first, second, third, fourth);
    if counts(db) != [1, 1, 0, 2] {
        return Ok(false);
    }
    delete_two(clauses, db, watchlists, first, third);
    if counts(db) != [0, 1, 0, 1] || offsets(clauses, db) != (Some(6), Some(18), None) {
        return Ok(false);
    }
    collects(alloc, clauses, db, watchlists, second)
}

#[test]
fn tiers_deletions_and_collections(rt: HostRuntime) {
    let mut clauses = ClauseAlloc::new(rt.alloc());
    let mut db = ClauseDb::new(rt.alloc());
    let mut watchlists = Watchlists::new(rt.alloc());
    assert!(rt; row(rt.alloc(), &mut clauses, &mut db, &mut watchlists) == Ok(true));
    assert!(rt; counts(&db) == [0, 1, 0, 0]);
    drop(clauses);
    drop(db);
    drop(watchlists);
}
