//! Adds the search's data for new indices.
ghost use Rattle.std.specs.Prelude.{ℕ, ◌≡◌, ◌<◌, ◌≤◌, None, [], ◌∷◌, OnOk, length};
ghost use Rattle.std.specs.List.{AllByRecursion};
ghost use Rattle.sat_base.specs.values.Literals.{var_limit};
ghost use Rattle.sat_solver.specs.variables.Search.{IndicesDistinct};
ghost use Rattle.sat_parts.specs.parts.Whole.{SearchStateInvariant};
ghost use Rattle.sat_solver.specs.variables.Initialized.{IsVacant, AreVacant, ActivatesIndices, SetsVariablesOfIndices};
ghost use Rattle.sat_solver.specs.variables.Initialized.{GivesSearchIndices};

use crate::context::Search;
use crate::variables::solver_vars::Given;
use sat_base::Var;
use sat_parts::SearchState;
use sat_parts::parts::set_var_count;
use sat_parts::parts::variables::{make_available, reset_activity, use_with_unit};
use std::alloc::AllocError;

/// Adds an index at level 0. If its variable has a unit, the index takes the value of the unit; otherwise it may be
/// picked, with activity 0. Its saved phase is the last value of the index.
fn initialize_var(parts: &mut SearchState, given: &Given)
    requires holds { SearchStateInvariant parts.old }
    requires bottom { parts.old.trail.starts ≡ [] }
    requires vacant { IsVacant parts.old (length parts.old.assignment.current) given.now }
    ensures { ActivatesIndices (given.now ∷ []) parts.old parts.new }
{
    reset_activity(parts, given.solver);
    match given.unit {
        None => make_available(parts, given.solver),
        Some(value) => use_with_unit(parts, given.solver.lit(value)),
    }
}

/// Adds the indices in `given`, in order.
fn add_indices(parts: &mut SearchState, given: &[Given])
    requires holds { SearchStateInvariant parts.old }
    requires bottom { parts.old.trail.starts ≡ [] }
    requires vacant { AreVacant parts.old (length parts.old.assignment.current) given.now }
    ensures { ActivatesIndices given.now parts.old parts.new }
{
    for at in 0..given.len() {
        initialize_var(parts, &given[at]);
    }
}

/// Copies the proof variables of the indices in `given` from `globals` to `list`.
fn copy_globals(list: &mut Vec<Var>, globals: &[Var], given: &[Given])
    requires there { AllByRecursion (λ g. g.solver < length list.old.items) given.now }
    requires below { AllByRecursion (λ g. g.solver < length globals.now) given.now }
    requires apart { IndicesDistinct given.now }
    ensures { SetsVariablesOfIndices given.now globals.now list.old.items list.new.items }
{
    for at in 0..given.len() {
        let index = given[at].solver.index();
        list[index] = globals[index];
    }
}

/// Returns the lowest number that is at least `count` and above all indices in `given`.
fn count_above(count: usize, given: &[Given]) -> usize
    requires few { count ≤ var_limit }
    ensures few { result ≤ var_limit }
    ensures more { count ≤ result }
    ensures past { AllByRecursion (λ g. g.solver < result) given.now }
    ensures least { (m : ℕ) → count ≤ m → AllByRecursion (λ g. g.solver < m) given.now → result ≤ m }
{
    let mut all = count;
    for at in 0..given.len() {
        all = all.max(given[at].solver.index() + 1);
    }
    all
}

/// Adds, at level 0, the indices that proof variables were given, whether these are new or were released before.
/// `globals` contains the proof variable that each index belongs to, or belonged to last.
pub fn new_indices(search: &mut Search, globals: &[Var], given: &[Given]) -> Result<(), AllocError>
    requires holds { SearchStateInvariant search.old.parts }
    requires bottom { search.old.parts.trail.starts ≡ [] }
    requires same { length search.old.globals.items ≡ length search.old.parts.assignment.current }
    requires vacant { AreVacant search.old.parts (length globals.now) given.now }
    ensures { OnOk result (GivesSearchIndices globals.now given.now search.old search.new) }
{
    if given.is_empty() {
        return Ok(());
    }
    let count = count_above(search.globals.len(), given);
    set_var_count(&mut search.parts, count)?;
    search.analysis.set_var_count(count)?;
    search.flags.set_var_count(count)?;
    search.globals.resize(count, Var::from_index(0))?;
    copy_globals(&mut search.globals, globals, given);
    add_indices(&mut search.parts, given);
    Ok(())
}
