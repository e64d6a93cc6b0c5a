//! The clauses that are present in a text in which variables may become new.
ghost use Rattle.std.specs.Prelude.{◌≡◌, ◌≢◌, ◌⊎◌, ℕ, [], None, Some, IfOk, OnErr, OnOk, MatchBool, MatchOption};
ghost use Rattle.sat_checker.specs.SortedSets.{IsIncreasing};
ghost use Rattle.sat_hints.specs.inner.Clauses.{IdsBelow};
ghost use Rattle.sat_hints.specs.inner.ActiveClauses.{active_clause, is_stale, RemovesActiveClause, FindsActiveClause};
ghost use Rattle.sat_hints.specs.inner.ActiveClauses.{MakesVariableNew};
ghost use Rattle.sat_hints.specs.inner.ActiveClauses.{AddsActiveClause, ActiveClausesInvariant, IsUsed};
ghost use Rattle.sat_hints.specs.inner.ActiveClauses.{UnitBoundsWithin};

use crate::present::Present;
use crate::uses::Uses;
use sat_base::{Lit, Table, Var};
use std::alloc::{AllocError, Global};

/// Clauses by id. A unit is removed when its variable becomes new.
#[derive(Drop)]
pub(crate) struct ActiveClauses {
    pub(crate) present: Present,
    uses: Uses,
    /// For each variable, a bound on ids: units of the variable with ids below the bound were added before it last
    /// became new.
    unit_bounds: Table<u64>,
}

impl ActiveClauses {
    /// Returns an empty collection of clauses. Never allocates.
    pub(crate) fn new(alloc: Global) -> ActiveClauses
        ensures active { ActiveClausesInvariant result }
        ensures none { result.present.ids.items ≡ [] }
        ensures clauses { (id : ℕ) → active_clause result id ≡ None }
        ensures unit_bounds { UnitBoundsWithin result 0 }
    {
        ActiveClauses {
            present: Present::new(alloc),
            uses: Uses::new(alloc),
            unit_bounds: Table::new(alloc),
        }
    }

    /// Returns `true` if `clause`, stored under `id`, is a unit that was added before its variable last became new.
    #[inline(always)]
    fn is_stale(&self, id: u64, clause: &[Lit]) -> bool
        ensures { result ≡ is_stale self.now.unit_bounds id clause.now }
    {
        if clause.len() != 1 {
            return false;
        }
        id < self.unit_bounds.get(clause[0].index(), 0)
    }

    /// Returns the place of the clause under `id`, or `None` if no clause is present.
    pub(crate) fn find(&self, id: u64) -> Option<usize>
        requires { ActiveClausesInvariant self.now }
        ensures { MatchOption result (active_clause self.now id ≡ None) (FindsActiveClause self.now id) }
    {
        let place = self.present.find(id)?;
        if self.is_stale(id, self.present.clause(place)) {
            return None;
        }
        Some(place)
    }

    /// Returns the literals of the clause under `id` as a slice, or `None` if no clause is present.
    #[inline(always)]
    pub(crate) fn find_clause(&self, id: u64) -> Option<&[Lit]>
        requires { ActiveClausesInvariant self.now }
        ensures { MatchOption result (active_clause self.now id ≡ None) (λ clause. active_clause self.now id ≡ Some clause.now) }
    {
        let place = self.present.find(id)?;
        let clause = self.present.clause(place);
        if self.is_stale(id, clause) {
            return None;
        }
        Some(clause)
    }

    /// Adds a clause, given as a sorted set, under `id`, which must be above all earlier ids.
    pub(crate) fn push(&mut self, id: u64, clause: &[Lit]) -> Result<(), AllocError>
        requires active { ActiveClausesInvariant self.old }
        requires above { IdsBelow self.old.present.ids.items id }
        requires unit_bounds { UnitBoundsWithin self.old id }
        requires increasing { IsIncreasing clause.now }
        ensures { OnOk result (AddsActiveClause self.old self.new id clause.now) }
    {
        self.present.push(id, clause)?;
        self.uses.add(&self.present, clause)?;
        Ok(())
    }

    /// Removes the clause under `id`. Returns `true` if a clause was present.
    pub(crate) fn remove(&mut self, id: u64) -> Result<bool, AllocError>
        requires { ActiveClausesInvariant self.old }
        ensures takes { IfOk result (λ was. MatchBool was ((active_clause self.old id ≢ None) × RemovesActiveClause self.old self.new id)
            ((active_clause self.old id ≡ None) × (self.new ≡ self.old))) }
        ensures on_error { OnErr result (active_clause self.old id ≢ None) }
    {
        let Some(place) = self.find(id) else {
            return Ok(false);
        };
        self.uses.subtract(self.present.clause(place));
        self.present.remove(place)?;
        Ok(true)
    }

    /// Returns `true` if the variable is in a present clause of two or more literals. Searches all clauses until a
    /// variable first becomes new, and uses counts from then on.
    pub(crate) fn is_used(&self, var: Var) -> bool
        requires { ActiveClausesInvariant self.now }
        ensures { MatchBool result (IsUsed self.now var) (IsUsed self.now var → ⊥) }
    {
        self.uses.has(&self.present, var)
    }

    /// Makes a variable new, which removes its units. The ids of all clauses must be below `bound`.
    pub(crate) fn forget_units(&mut self, var: Var, bound: u64) -> Result<(), AllocError>
        requires active { ActiveClausesInvariant self.old }
        requires above { IdsBelow self.old.present.ids.items bound }
        requires unit_bounds { UnitBoundsWithin self.old bound }
        ensures { OnOk result (MakesVariableNew self.old self.new var bound) }
    {
        self.uses.begin(&self.present)?;
        self.unit_bounds.set(var.index(), bound, 0)
    }
}
