//! Tests of loading clauses into the parts of a search.
ghost use Rattle.std.specs.Prelude.{ℕ, ◌≡◌, ◌≢◌, ◌*◌, ◌<◌, ◌≤◌, IsTrue, OnOk, [], length, slice_index_or};
ghost use Rattle.sat_base.specs.values.Literals.{var_limit};
ghost use Rattle.sat_parts.specs.clause.Orders.{AreDistinct};
ghost use Rattle.sat_parts.specs.parts.Whole.{SearchStateInvariant};
ghost use Rattle.sat_parts_tests.specs.Loading.{IsReady};

use sat_base::{Lit, Var};
use sat_parts::SearchState;
use sat_parts::parts::load::load;
use sat_parts::parts::set_var_count;
use sat_parts::parts::sorting::{Sorting, new_sorting};
use sat_parts::parts::steps::full_restart;
use sat_parts::parts::variables::make_available;
use sat_store::StoreError;
use std::alloc::{AllocError, Global};

/// Returns `true` if `lit` occurs in `lits` at index `from` or later.
fn stands_from(lits: &[Lit], from: usize, lit: Lit) -> bool
    ensures { ¬ IsTrue result → (k : ℕ) → from ≤ k → k < length lits.now → slice_index_or lits.now k 0 ≢ lit }
{
    for at in from..lits.len() {
        if lits[at] == lit {
            return true;
        }
    }
    false
}

/// Returns `true` if each literal's variable has an index below `count`.
fn are_below(lits: &[Lit], count: usize) -> bool
    ensures { IsTrue result → (k : ℕ) → k < length lits.now → slice_index_or lits.now k 0 < 2 * count }
{
    for lit in lits {
        if lit.index() >= count {
            return false;
        }
    }
    true
}

/// Returns `true` if no literal occurs twice.
fn are_distinct(lits: &[Lit]) -> bool
    ensures { IsTrue result → AreDistinct lits.now }
{
    for at in 0..lits.len() {
        if stands_from(lits, at + 1, lits[at]) {
            return false;
        }
    }
    true
}

/// Makes every variable available for being picked.
fn use_all(parts: &mut SearchState, count: usize)
    requires holds { SearchStateInvariant parts.old }
    requires bottom { parts.old.trail.starts ≡ [] }
    requires size { length parts.old.assignment.current ≡ count }
    requires few { count ≤ var_limit }
    ensures { IsReady parts.new count }
{
    for index in 0..count {
        make_available(parts, Var::from_index(index));
    }
}

/// Introduces `count` variables. There must be no variables before.
fn begin(parts: &mut SearchState, count: usize) -> Result<(), AllocError>
    requires holds { SearchStateInvariant parts.old }
    requires none { parts.old.assignment.current ≡ [] }
    requires few { count ≤ var_limit }
    ensures { OnOk result (IsReady parts.new count) }
{
    set_var_count(parts, count)?;
    full_restart(parts);
    use_all(parts, count);
    Ok(())
}

/// Loads a clause. Returns `false` if its literals aren't distinct literals over `count` variables.
fn load_one(
    parts: &mut SearchState,
    count: usize,
    lits: &[Lit],
    sorting: &mut Sorting,
) -> Result<bool, StoreError>
    requires { IsReady parts.old count }
    ensures { OnOk result (IsReady parts.new count) }
{
    if lits.len() >= 4294967296 || !are_below(lits, count) || !are_distinct(lits) {
        return Ok(false);
    }
    load(parts, lits, sorting)?;
    Ok(true)
}

/// Replaces `lits` by the literals with the given DIMACS numbers.
fn read_lits(lits: &mut Vec<Lit>, numbers: &[i64]) -> Result<(), AllocError> {
    lits.clear();
    for number in numbers {
        if let Some(lit) = Lit::from_dimacs(*number) {
            lits.push(lit)?;
        }
    }
    Ok(())
}

/// Loads clauses in order. Returns `false` if one of them isn't a clause over `count` variables.
fn load_all(
    parts: &mut SearchState,
    count: usize,
    lits: &mut Vec<Lit>,
    sorting: &mut Sorting,
    clauses: &[&[i64]],
) -> Result<bool, StoreError>
    requires { IsReady parts.old count }
    ensures { OnOk result (IsReady parts.new count) }
{
    for numbers in clauses {
        read_lits(lits, numbers)?;
        if !load_one(parts, count, lits, sorting)? {
            return Ok(false);
        }
    }
    Ok(true)
}

/// Introduces `count` variables, and loads clauses in order. Returns `false` if one of them isn't a clause over the
/// variables. There must be no variables before.
pub fn loaded(
    alloc: Global,
    parts: &mut SearchState,
    count: usize,
    clauses: &[&[i64]],
) -> Result<bool, StoreError>
    requires holds { SearchStateInvariant parts.old }
    requires none { parts.old.assignment.current ≡ [] }
    requires few { count ≤ var_limit }
    ensures { OnOk result (IsReady parts.new count) }
{
    begin(parts, count)?;
    let mut lits = Vec::new(alloc);
    let mut sorting = new_sorting(alloc);
    load_all(parts, count, &mut lits, &mut sorting, clauses)
}
