//! Tests of borrowed lists of watches.
ghost use Rattle.std.specs.Prelude.{◌≡◌, ◌<◌, length};

use sat_base::Lit;
use sat_parts::{Watch, Watchlists};
use sat_store::{ClauseAlloc, ClauseHeader, ClauseRef, StoreError};
use std::alloc::AllocError;

/// Returns `true` if a literal has a single watch, with the clause `cref` and the literal `blocking`.
fn is_watched(watchlists: &mut Watchlists, lit: Lit, cref: ClauseRef, blocking: Lit) -> bool
    requires { lit < length watchlists.old.lists }
    ensures { length watchlists.new.lists ≡ length watchlists.old.lists }
{
    let list = watchlists.watched_by_mut(lit);
    list.len() == 1 && list.cref(0) == cref && list.blocking(0) == blocking
}

/// Adds a watch to the list of a literal.
fn watch(
    watchlists: &mut Watchlists,
    lit: Lit,
    cref: ClauseRef,
    blocking: Lit,
) -> Result<(), AllocError>
    requires { lit < length watchlists.old.lists }
    ensures { length watchlists.new.lists ≡ length watchlists.old.lists }
{
    let list = watchlists.watched_by_mut(lit);
    list.push(Watch { cref, blocking })
}

/// Clears the list of a literal.
fn unwatch(watchlists: &mut Watchlists, lit: Lit)
    requires { lit < length watchlists.old.lists }
    ensures { length watchlists.new.lists ≡ length watchlists.old.lists }
{
    let list = watchlists.watched_by_mut(lit);
    list.clear();
}

fn lent(watchlists: &mut Watchlists, cref: ClauseRef) -> Result<bool, AllocError>
    requires { length watchlists.old.lists ≡ 4 }
{
    let (first, second) = (Lit::from_code(1), Lit::from_code(2));
    watch(watchlists, first, cref, second)?;
    let there = is_watched(watchlists, first, cref, second);
    let elsewhere = is_watched(watchlists, second, cref, first);
    unwatch(watchlists, first);
    Ok(there && !elsewhere && !is_watched(watchlists, first, cref, second))
}

fn row(clauses: &mut ClauseAlloc, watchlists: &mut Watchlists) -> Result<bool, StoreError> {
    let lits = [Lit::from_code(0), Lit::from_code(3), Lit::from_code(4)];
    let cref = clauses.add_clause(ClauseHeader::new(), &lits)?;
    watchlists.set_var_count(2)?;
    Ok(lent(watchlists, cref)?)
}

#[test]
fn list_is_lent_and_written(rt: HostRuntime) {
    let mut clauses = ClauseAlloc::new(rt.alloc());
    let mut watchlists = Watchlists::new(rt.alloc());
    assert!(rt; row(&mut clauses, &mut watchlists) == Ok(true));
    drop(clauses);
    drop(watchlists);
}
