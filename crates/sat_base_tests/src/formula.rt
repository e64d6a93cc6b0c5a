//! Tests of each function of a formula, of its state after a refusal, and of a caller that knows only the trait.
//!
//! A function that owns a formula has no `?`, which would take long to prove.
ghost use Rattle.std.specs.Prelude.{◌≡◌, ◌≤◌, ◌∷◌, [], ℕ, true, OnOk};
ghost use Rattle.sat_base.specs.values.Literals.{mk_lit, var_limit};

use sat_base::{CnfFormula, ExtendFormula, FormulaError, Lit, Var};
use std::mem;
use std::test::*;

/// Adds a new literal as a clause of its own.
fn add_unit<F: ExtendFormula>(formula: &mut F) -> Result<Lit, F::Error>
    requires { F.ready formula.old }
    ensures ready { F.ready formula.new }
    ensures adds { OnOk result ((v : ℕ) × (between : F) × F.makes formula.old v between
        × F.adds between (mk_lit v true ∷ []) formula.new) }
{
    let lit = formula.new_lit()?;
    formula.add_clause(&[lit])?;
    Ok(lit)
}

/// Returns the number of clauses, whether there are none, and the number of variables.
fn counts(formula: &CnfFormula) -> (usize, bool, usize) {
    (formula.len(), formula.is_empty(), formula.var_count())
}

/// Returns `true` if an iterator returns the clause `first`, an empty clause, the clause `last`, and then `None`.
fn gives_three<'x>(formula: &'x CnfFormula, first: &'x [Lit], last: &'x [Lit]) -> bool {
    let mut clauses = formula.iter();
    let is_sized = clauses.len() == 3 && clauses.size_hint() == (3, Some(3));
    let found = [
        clauses.next(),
        clauses.next(),
        clauses.next(),
        clauses.next(),
        clauses.next(),
    ];
    is_sized && found == [Some(first), Some(&[]), Some(last), None, None]
}

fn longest(formula: &CnfFormula) -> usize {
    let mut longest = 0;
    for clause in formula {
        longest = clause.len().max(longest);
    }
    longest
}

/// Adds the clause `first`, an empty clause, and the clause `last`.
fn add_three(formula: &mut CnfFormula, first: &[Lit], last: &[Lit]) -> Result<(), FormulaError> {
    formula.add_clause(first)?;
    formula.add_clause(&[])?;
    formula.add_clause(last)
}

/// Returns `true` if three clauses that are added to an empty formula are returned in order.
fn keeps_order(formula: &mut CnfFormula) -> bool {
    let (one, two, three) = (Var::from_index(0), Var::from_index(1), Var::from_index(2));
    let first = [one.positive(), two.negative()];
    let last = [three.negative(), two.positive(), one.positive()];
    counts(formula) == (0, true, 0)
        && add_three(formula, &first, &last) == Ok(())
        && counts(formula) == (3, false, 3)
        && gives_three(formula, &first, &last)
        && longest(formula) == 3
}

#[test]
fn clauses_come_in_order(rt: HostRuntime) {
    let mut formula = CnfFormula::new(rt.alloc());
    assert!(rt; keeps_order(&mut formula));
}

/// Sets the number of variables, and returns the number afterwards.
fn set(formula: &mut CnfFormula, count: usize) -> usize
    requires { count ≤ var_limit }
{
    formula.set_var_count(count);
    formula.var_count()
}

/// Returns `true` if the variables of an empty formula are counted when some are new and the number is set.
fn counts_variables(formula: &mut CnfFormula) -> bool {
    formula.var_count() == 0
        && formula.new_var() == Ok(Var::from_index(0))
        && set(formula, 7) == 7
        && set(formula, 5) == 7
        && formula.new_lit() == Ok(Lit::from_index(7, true))
        && formula.var_count() == 8
}

#[test]
fn variables_are_counted(rt: HostRuntime) {
    let mut formula = CnfFormula::new(rt.alloc());
    assert!(rt; counts_variables(&mut formula));
    assert!(rt; formula.add_clause(&[Lit::from_index(20, false)]) == Ok(()));
    assert!(rt; formula.new_var() == Ok(Var::from_index(21)));
}

/// Returns `true` if a formula with as many variables as the limit allows returns no new one, but accepts a clause with
/// the last variable.
fn gives_no_more(formula: &mut CnfFormula) -> bool {
    formula.new_var() == Err(FormulaError::VariableLimit)
        && formula.new_lit() == Err(FormulaError::VariableLimit)
        && counts(formula) == (0, true, 268_435_456)
        && formula.add_clause(&[Lit::from_index(268_435_455, true)]) == Ok(())
        && formula.var_count() == 268_435_456
}

#[test]
fn no_variable_is_left(rt: HostRuntime) {
    let mut formula = CnfFormula::new(rt.alloc());
    formula.set_var_count(Var::max_count());
    assert!(rt; gives_no_more(&mut formula));
}

/// Returns `true` if a unit clause of a new variable is added to a formula of one clause.
fn takes_unit(formula: &mut CnfFormula) -> bool {
    formula.add_clause(&[Lit::from_index(2, true)]) == Ok(())
        && add_unit(formula) == Ok(Lit::from_index(3, true))
        && counts(formula) == (2, false, 4)
}

#[test]
fn a_generic_caller(rt: HostRuntime) {
    let mut formula = CnfFormula::new(rt.alloc());
    assert!(rt; takes_unit(&mut formula));
}

/// Returns `true` if a formula's clause moves along when the formula is swapped with an empty one.
fn is_taken_out(formula: &mut CnfFormula, empty: &mut CnfFormula) -> bool {
    let is_added = formula.add_clause(&[Lit::from_index(2, true)]) == Ok(());
    mem::swap(formula, empty);
    is_added && counts(empty) == (1, false, 3) && counts(formula) == (0, true, 0)
}

#[test]
fn a_formula_is_taken_out(rt: HostRuntime) {
    let mut formula = CnfFormula::new(rt.alloc());
    let mut empty = CnfFormula::new(rt.alloc());
    assert!(rt; is_taken_out(&mut formula, &mut empty));
}
