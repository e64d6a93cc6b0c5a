//! Values indexed by literal.
ghost use Rattle.std.specs.Prelude.{◌≡◌, ◌+◌, ◌*◌, ◌<◌, ◌≤◌, ◌↔◌, [], length, IsTrue, OnOk, OnErr, slice_index_or};
ghost use Rattle.std.specs.Prelude.{Some};
ghost use Rattle.sat_base.specs.values.Literals.{var_limit, variable, is_positive};
ghost use Rattle.sat_parts.specs.prop.LitValues.{signed_value, with_lit_value, with_lit_count};

use sat_base::{Lit, Var};
use std::alloc::{AllocError, Global};

/// The value of a literal, or `Open` if it is unassigned.
#[derive(Clone, Copy)]
pub(crate) enum LitValue {
    Open,
    True,
    False,
}

/// The values of all literals, indexed by literal code.
#[derive(Drop)]
pub(crate) struct LitValues {
    pub(crate) codes: Vec<LitValue>,
}

/// Returns the value of the positive literal of a variable whose value is `value`, or of the negative literal if
/// `positive` is false.
#[inline(always)]
fn lit_value(value: Option<bool>, positive: bool) -> LitValue
    ensures { result ≡ signed_value value positive }
{
    match value {
        None => LitValue::Open,
        Some(true) => {
            if positive {
                LitValue::True
            } else {
                LitValue::False
            }
        }
        Some(false) => {
            if positive {
                LitValue::False
            } else {
                LitValue::True
            }
        }
    }
}

/// Returns `true` if a value is `True`.
#[inline(always)]
pub(crate) fn is_true(value: LitValue) -> bool
    ensures { IsTrue result ↔ (value ≡ LitValue.True) }
{
    match value {
        LitValue::True => true,
        LitValue::Open => false,
        LitValue::False => false,
    }
}

impl LitValues {
    /// Returns an empty list of values. Never allocates.
    pub(crate) fn new(alloc: Global) -> LitValues
        ensures { result.codes.items ≡ [] }
    {
        LitValues {
            codes: Vec::new(alloc),
        }
    }

    /// Sets the number of variables. Literals of new variables are unassigned.
    pub(crate) fn set_var_count(&mut self, count: usize) -> Result<(), AllocError>
        requires { count ≤ var_limit }
        ensures done { OnOk result (self.new.codes.items ≡ with_lit_count (2 * count) self.old.codes.items) }
        ensures same { OnErr result (self.new.codes.items ≡ self.old.codes.items) }
    {
        let more = (2 * count).saturating_sub(self.codes.len());
        self.codes.reserve(more)?;
        self.codes.resize(2 * count, LitValue::Open)?;
        Ok(())
    }

    /// Returns `true` if a literal is true.
    #[inline(always)] // called for each literal that an inner loop looks at
    pub(crate) fn is_true(&self, lit: Lit) -> bool
        requires { lit < length self.now.codes.items }
        ensures { IsTrue result ↔ (slice_index_or self.now.codes.items lit LitValue.Open ≡ LitValue.True) }
    {
        is_true(self.codes[lit.code()])
    }

    /// Returns `true` if a literal is false.
    #[inline(always)] // called for each literal that an inner loop looks at
    pub(crate) fn is_false(&self, lit: Lit) -> bool
        requires { lit < length self.now.codes.items }
        ensures { IsTrue result ↔ (slice_index_or self.now.codes.items lit LitValue.Open ≡ LitValue.False) }
    {
        match self.codes[lit.code()] {
            LitValue::False => true,
            LitValue::Open => false,
            LitValue::True => false,
        }
    }

    /// Returns `true` if a literal is unassigned.
    #[inline(always)] // called for each literal that an inner loop looks at
    pub(crate) fn is_open(&self, lit: Lit) -> bool
        requires { lit < length self.now.codes.items }
        ensures { IsTrue result ↔ (slice_index_or self.now.codes.items lit LitValue.Open ≡ LitValue.Open) }
    {
        match self.codes[lit.code()] {
            LitValue::Open => true,
            LitValue::True => false,
            LitValue::False => false,
        }
    }

    /// Makes a literal true.
    #[inline(always)] // called for each literal that is assigned
    pub(crate) fn make_true(&mut self, lit: Lit)
        requires { 2 * variable lit + 1 < length self.old.codes.items }
        ensures { self.new.codes.items ≡ with_lit_value (variable lit) (Some (is_positive lit)) self.old.codes.items }
    {
        self.codes[lit.code()] = LitValue::True;
        self.codes[(!lit).code()] = LitValue::False;
    }

    /// Sets the values of both literals of a variable from the variable's value.
    pub(crate) fn set_var(&mut self, var: Var, value: Option<bool>)
        requires { 2 * var + 1 < length self.old.codes.items }
        ensures { self.new.codes.items ≡ with_lit_value var value self.old.codes.items }
    {
        let code = 2 * var.index();
        self.codes[code] = lit_value(value, true);
        self.codes[code + 1] = lit_value(value, false);
    }
}
