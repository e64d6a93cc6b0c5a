//! The values of variables.
ghost use Rattle.std.specs.Prelude.{◌≡◌, ◌<◌, ◌≤◌, ◌↔◌, [], length, IsTrue, OnOk, OnErr, None, slice_index_or};
ghost use Rattle.std.specs.Prelude.{slice_set};
ghost use Rattle.sat_base.specs.values.Literals.{var_limit, variable, is_positive};
ghost use Rattle.sat_parts.specs.prop.Values.{with_value, with_true_lit, with_var_count, value_of, lit_value_from};
ghost use Rattle.sat_parts.specs.prop.Values.{IsTrueLit};
ghost use Rattle.sat_parts.specs.prop.Values.{IsFalseLit, IsUnassignedLit};
ghost use Rattle.sat_parts.specs.clause.Glue.{VariablesBelow};
ghost use Rattle.sat_parts.specs.prop.LitValues.{MirrorsValues};
ghost use Rattle.sat_parts.specs.prop.Undone.{with_values_lost, is_some_true, values_of};

use crate::prop::lit_values::{LitValue, LitValues, is_true};
use sat_base::{Lit, Var};
use std::alloc::{AllocError, Global};
use std::marker::Model;

/// The values of the assigned variables, and for every variable the last value that it lost, which is initially false.
///
/// Contracts see both lists, indexed by variable.
#[derive(Drop)]
pub struct Assignment {
    values: Vec<Option<bool>>,
    last_values: Vec<bool>,
    /// The values in `values`, indexed by literal code, so that an inner loop needs only one load and one branch.
    lit_values: LitValues,
}

impl Model for Assignment {
    ghost use Rattle.std.specs.Prelude.{◌≡◌, ◌≤◌, length};
    ghost use Rattle.sat_base.specs.values.Literals.{var_limit};
    ghost use Rattle.sat_parts.specs.prop.Values.{Values};
    ghost use Rattle.sat_parts.specs.prop.LitValues.{MirrorsValues};

    ghost Value = { Values };

    ghost view = { λ a. record { current = a.values.items; last = a.last_values.items } };

    ghost invariant = { λ a. (length a.last_values.items ≡ length a.values.items) × (length a.values.items ≤ var_limit)
        × MirrorsValues a.values.items a.lit_values.codes.items };
}

/// Returns `true` if both are the same value, or both are `None`.
#[inline(always)] // called for each literal that an inner loop looks at
pub fn fast_option_eq(a: Option<bool>, b: Option<bool>) -> bool
    ensures { IsTrue result ↔ (a ≡ b) }
{
    a == b
}

impl Assignment {
    /// Returns an assignment without variables. Never allocates.
    pub fn new(alloc: Global) -> Assignment
        ensures current { result.current ≡ [] }
        ensures last { result.last ≡ [] }
    {
        Assignment {
            values: Vec::new(alloc),
            last_values: Vec::new(alloc),
            lit_values: LitValues::new(alloc),
        }
    }

    /// Sets the number of variables. New variables have no value.
    pub fn set_var_count(&mut self, count: usize) -> Result<(), AllocError>
        requires { count ≤ var_limit }
        ensures done { OnOk result (self.new ≡ with_var_count count self.old) }
        ensures same { OnErr result (self.new ≡ self.old) }
    {
        let more = count.saturating_sub(self.values.len());
        self.values.reserve(more)?;
        self.last_values.reserve(more)?;
        self.lit_values.set_var_count(count)?;
        self.values.resize(count, None)?;
        self.last_values.resize(count, false)?;
        Ok(())
    }

    /// Returns the values, indexed by variable.
    #[inline(always)] // called for each literal that an inner loop looks at
    pub fn assignment(&self) -> &[Option<bool>]
        ensures values { result.now ≡ self.now.current }
        ensures last { length self.now.last ≡ length self.now.current }
        ensures bound { length self.now.current ≤ var_limit }
    {
        &self.values
    }

    /// Returns the value of a variable, or `None` if it is unassigned.
    pub fn var_value(&self, var: Var) -> Option<bool>
        requires { var < length self.now.current }
        ensures { result ≡ value_of self.now.current var }
    {
        self.values[var.index()]
    }

    /// Returns the saved phase of a variable: the last value that it lost, or `false` if it has lost none.
    pub fn last_var_value(&self, var: Var) -> bool
        requires { var < length self.now.current }
        ensures { result ≡ slice_index_or self.now.last var result }
    {
        self.last_values[var.index()]
    }

    /// Returns the value of a literal, or `None` if it is unassigned.
    pub fn lit_value(&self, lit: Lit) -> Option<bool>
        requires { variable lit < length self.now.current }
        ensures { result ≡ lit_value_from (is_positive lit) (value_of self.now.current (variable lit)) }
    {
        match self.values[lit.index()] {
            None => None,
            Some(value) => Some(value == lit.is_positive()),
        }
    }

    /// Returns `true` if a literal is true.
    #[inline(always)] // called for each literal that an inner loop looks at
    pub fn lit_is_true(&self, lit: Lit) -> bool
        requires { variable lit < length self.now.current }
        ensures { IsTrue result ↔ IsTrueLit self.now.current lit }
    {
        self.lit_values.is_true(lit)
    }

    /// Returns `true` if a literal is false.
    #[inline(always)] // called for each literal that an inner loop looks at
    pub fn lit_is_false(&self, lit: Lit) -> bool
        requires { variable lit < length self.now.current }
        ensures { IsTrue result ↔ IsFalseLit self.now.current lit }
    {
        self.lit_values.is_false(lit)
    }

    /// Returns `true` if a literal is unassigned.
    #[inline(always)] // called for each literal that an inner loop looks at
    pub fn lit_is_unk(&self, lit: Lit) -> bool
        requires { variable lit < length self.now.current }
        ensures { IsTrue result ↔ IsUnassignedLit self.now.current lit }
    {
        self.lit_values.is_open(lit)
    }

    /// Makes a literal true.
    pub fn assign_lit(&mut self, lit: Lit)
        requires { variable lit < length self.old.current }
        ensures { self.new ≡ with_true_lit lit self.old }
    {
        self.values[lit.index()] = Some(lit.is_positive());
        self.lit_values.make_true(lit);
    }

    /// Removes the value of a variable, without recording the value as the last value that the variable lost.
    pub fn unassign_var(&mut self, var: Var)
        requires { var < length self.old.current }
        ensures { self.new ≡ with_value var None self.old }
    {
        self.values[var.index()] = None;
        self.lit_values.set_var(var, None);
    }

    /// Removes the values of literals' variables, and records them as the last values that the variables lost.
    pub(crate) fn lose_all(&mut self, lits: &[Lit])
        requires { VariablesBelow lits.now (length self.old.current) }
        ensures { self.new ≡ with_values_lost lits.now self.old }
    {
        lose_values(
            &mut self.values,
            &mut self.last_values,
            &mut self.lit_values.codes,
            lits,
        );
    }

    /// Sets the value of a variable, or removes it if `value` is `None`.
    pub fn set_var(&mut self, var: Var, value: Option<bool>)
        requires { var < length self.old.current }
        ensures { self.new ≡ with_value var value self.old }
    {
        self.values[var.index()] = value;
        self.lit_values.set_var(var, value);
    }
}

/// Does what `Assignment::lose_all` does, on the three lists as slices, whose addresses then stay in registers.
fn lose_values(values: &mut [Option<bool>], last: &mut [bool], codes: &mut [LitValue], lits: &[Lit])
    requires below { VariablesBelow lits.now (length values.old) }
    requires last { length last.old ≡ length values.old }
    requires mirrors { MirrorsValues values.old codes.old }
    ensures values { values_of values.new last.new ≡ with_values_lost lits.now (values_of values.old last.old) }
    ensures size { length values.new ≡ length values.old }
    ensures last { length last.new ≡ length last.old }
    ensures mirrors { MirrorsValues values.new codes.new }
{
    for lit in lits {
        lose_value(values, last, codes, lit.index());
    }
}

/// Removes the value of a variable, and records it as the last value that the variable lost.
#[inline(always)] // called for each literal that is undone
fn lose_value(values: &mut [Option<bool>], last: &mut [bool], codes: &mut [LitValue], index: usize)
    requires below { index < length values.old }
    requires last { length last.old ≡ length values.old }
    requires mirrors { MirrorsValues values.old codes.old }
    ensures values { values.new ≡ slice_set values.old index None }
    ensures last { last.new ≡ slice_set last.old index (is_some_true (value_of values.old index)) }
    ensures mirrors { MirrorsValues values.new codes.new }
{
    last[index] = is_true(codes[2 * index]);
    values[index] = None;
    codes[2 * index] = LitValue::Open;
    codes[2 * index + 1] = LitValue::Open;
}
