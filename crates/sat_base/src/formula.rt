//! Formulas in conjunctive normal form.
ghost use Rattle.std.specs.Prelude.{◌≡◌, ◌≤◌, ◌<◌, [], length, ℕ, List, IsTrue, ◌↔◌};
ghost use Rattle.std.specs.Map.Iter.{ShowsInOrder, deref};
ghost use Rattle.sat_base.specs.values.Literals.{var_limit};
ghost use Rattle.sat_base.specs.values.Formulas.{no_formula, clause_var_count, clauses_var_count, with_at_least_vars};
ghost use Rattle.sat_base.specs.values.Formulas.{with_formula_clause};
ghost use Rattle.sat_base.specs.values.Formulas.{with_next_variable};
ghost use Rattle.sat_base.specs.declared.formula.error.FormulaError.TheVariants.{OutOfMemory, VariableLimit};

pub(crate) mod error;

use self::error::FormulaError;
use crate::extend::ExtendFormula;
use crate::flat_lists::{FlatLists, FlatListsIter};
use crate::{Lit, Var};
use std::alloc::Global;
use std::marker::Model;

/// An iterator over references to the clauses of a formula, in order.
pub type CnfFormulaIter<'a> = FlatListsIter<'a, Lit>;

/// A formula in conjunctive normal form: clauses, in the order in which they were added, and a number of variables,
/// which is at most 2^28.
#[derive(Debug, Drop)]
pub struct CnfFormula {
    var_count: usize,
    clauses: FlatLists<Lit>,
}

impl Model for CnfFormula {
    ghost use Rattle.std.specs.Prelude.{◌≤◌};
    ghost use Rattle.sat_base.specs.values.Literals.{var_limit};
    ghost use Rattle.sat_base.specs.values.Formulas.{Formula, clauses_var_count};

    ghost Value = { Formula };

    ghost view = { λ f. record { var_count = f.var_count; clauses = f.clauses } };

    ghost invariant = { λ f. (clauses_var_count f.clauses ≤ f.var_count) × (f.var_count ≤ var_limit) };
}

impl CnfFormula {
    /// Returns a formula without clauses or variables. Never allocates.
    pub fn new(alloc: Global) -> CnfFormula
        ensures { result ≡ no_formula }
    {
        CnfFormula {
            var_count: 0,
            clauses: FlatLists::new(alloc),
        }
    }

    /// Returns the number of variables. The indices of the variables are the numbers below it.
    pub fn var_count(&self) -> usize
        ensures count { result ≡ self.now.var_count }
        ensures covers { clauses_var_count self.now.clauses ≤ self.now.var_count }
        ensures bound { result ≤ var_limit }
    {
        self.var_count
    }

    /// Raises the number of variables to `count`. A lower count changes nothing.
    pub fn set_var_count(&mut self, count: usize)
        requires { count ≤ var_limit }
        ensures { self.new ≡ with_at_least_vars count self.old }
    {
        self.var_count = self.var_count.max(count);
    }

    /// Returns the number of clauses.
    pub fn len(&self) -> usize
        ensures { result ≡ length self.now.clauses }
    {
        self.clauses.len()
    }

    /// Returns `true` if the formula has no clauses.
    pub fn is_empty(&self) -> bool
        ensures { IsTrue result ↔ self.now.clauses ≡ [] }
    {
        self.len() == 0
    }

    /// Returns an iterator over the clauses, in order.
    pub fn iter(&self) -> CnfFormulaIter<'_>
        ensures rest { result ≡ self.now.clauses }
        ensures runs { ShowsInOrder (deref {X = List ℕ}) }
    {
        self.clauses.iter()
    }
}

/// Returns one more than the highest variable index among the literals, or 0 if there are no literals.
#[tactic(auto, using(crate::proofs::lemmas::values::FlatLemmas::vars_next))]
fn vars_in(lits: &[Lit]) -> usize
    ensures count { result ≡ clause_var_count lits.now }
    ensures bound { result ≤ var_limit }
{
    let mut count = 0;
    for lit in lits {
        count = count.max(lit.index() + 1);
    }
    count
}

impl ExtendFormula for CnfFormula {
    type Error = FormulaError;

    ghost ready = { λ _. Unit {0} };

    ghost adds = { λ f clause g. g ≡ with_formula_clause clause f };

    ghost refuses_clause = { λ f clause e g. (e ≡ OutOfMemory) × (g ≡ f) };

    ghost makes = { λ f v g. (v ≡ f.var_count) × (v < var_limit) × (g ≡ with_next_variable f) };

    ghost refuses_variable = { λ f e g. (e ≡ VariableLimit) × (f.var_count ≡ var_limit) × (g ≡ f) };

    fn add_clause(&mut self, lits: &[Lit]) -> Result<(), FormulaError> {
        self.clauses.push(lits)?;
        self.var_count = self.var_count.max(vars_in(lits));
        Ok(())
    }

    fn new_var(&mut self) -> Result<Var, FormulaError> {
        if self.var_count >= Var::max_count() {
            return Err(FormulaError::VariableLimit);
        }
        let var = Var::from_index(self.var_count);
        self.var_count += 1;
        Ok(var)
    }
}

impl<'a> IntoIterator for &'a CnfFormula {
    type Item = &'a [Lit];

    type IntoIter = CnfFormulaIter<'a>;

    ghost into_iter_gives = { λ f r. (r ≡ f.now.clauses) × ShowsInOrder (deref {X = List ℕ}) };

    fn into_iter(self) -> CnfFormulaIter<'a> {
        self.iter()
    }
}
