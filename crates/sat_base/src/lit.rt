//! Literals: variables with a sign, stored as codes.
ghost use Rattle.std.specs.Prelude.{ℕ, ◌≡◌, ◌*◌, ◌<◌, not, true, false, MatchOption};
ghost use Rattle.sat_base.specs.values.Literals.{mk_lit, var_limit, variable, is_positive, negated, negated_if};
ghost use Rattle.sat_base.specs.values.Numerals.{IsNotNumeral, numeral};

use crate::Var;
use std::fmt;
use std::marker::Model;
use std::ops::{BitXor, Not};

/// A literal: a variable or its negation. Contracts see the literal's code: twice the variable's index, plus one if the
/// literal is negative. Literals are ordered by their codes.
#[derive(Clone, Copy, Debug, PartialEq, Eq, PartialOrd, Ord, Hash)]
pub struct Lit {
    code: u32,
}

impl Model for Lit {
    ghost use Rattle.std.specs.Prelude.{ℕ, ◌<◌, ◌*◌};
    ghost use Rattle.sat_base.specs.values.Literals.{var_limit};

    ghost Value = { ℕ };

    ghost view = { λ l. l.code };

    ghost inverse = { λ n. record { code = n } };

    ghost invariant = { λ l. l.code < 2 * var_limit };
}

/// Writes the literal as in DIMACS, such as `-3` for the negative literal of the variable with index 2.
impl fmt::Display for Lit {
    fn fmt<W: fmt::Write>(&self, f: &mut fmt::Formatter<W>) -> fmt::Result {
        write!(f, "{}", self.to_dimacs())
    }
}

impl Lit {
    /// Returns the positive literal of `var` if `positive` is true, and the negative one otherwise.
    pub fn from_var(var: Var, positive: bool) -> Lit
        ensures { result ≡ mk_lit var positive }
    {
        Lit::from_index(var.index(), positive)
    }

    /// Returns the positive literal of a variable.
    pub fn positive(var: Var) -> Lit
        ensures { result ≡ mk_lit var true }
    {
        Lit::from_var(var, true)
    }

    /// Returns the negative literal of a variable.
    pub fn negative(var: Var) -> Lit
        ensures { result ≡ mk_lit var false }
    {
        Lit::from_var(var, false)
    }

    /// Returns the positive literal of the variable with this index if `positive` is true, and the negative
    /// one otherwise.
    pub fn from_index(index: usize, positive: bool) -> Lit
        requires { index < var_limit }
        ensures { result ≡ mk_lit index positive }
    {
        let sign = if positive { 0 } else { 1 };
        Lit {
            code: 2 * index as u32 + sign,
        }
    }

    /// Returns the literal with this code.
    pub fn from_code(code: usize) -> Lit
        requires { code < 2 * var_limit }
        ensures { result ≡ code }
    {
        Lit { code: code as u32 }
    }

    /// Returns the literal for a number in DIMACS: the absolute value is the number of the variable, and the sign is
    /// that of the literal. Returns `None` if the number is 0, or its absolute value is above 2^28.
    pub fn from_dimacs(number: i64) -> Option<Lit>
        ensures { MatchOption result (IsNotNumeral number) (λ l. number ≡ numeral l) }
    {
        let var = Var::from_dimacs(number.checked_abs()?)?;
        Some(var.lit(number > 0))
    }

    /// Returns the literal as a number in DIMACS, which is negative if the literal is.
    pub fn to_dimacs(self) -> i64
        ensures { result ≡ numeral self }
    {
        let number = self.var().to_dimacs();
        if self.is_positive() { number } else { -number }
    }

    /// Returns the variable.
    pub fn var(self) -> Var
        ensures { result ≡ variable self }
    {
        Var::from_index(self.index())
    }

    /// Returns the index of the variable.
    pub fn index(self) -> usize
        ensures value { result ≡ variable self }
        ensures bound { result < var_limit }
    {
        (self.code / 2) as usize
    }

    /// Returns the code: twice the variable's index, plus one if the literal is negative.
    pub fn code(self) -> usize
        ensures value { result ≡ self }
        ensures bound { result < 2 * var_limit }
    {
        self.code as usize
    }

    /// Returns `true` if the literal is positive.
    pub fn is_positive(self) -> bool
        ensures { result ≡ is_positive self }
    {
        self.code % 2 == 0
    }

    /// Returns `true` if the literal is negative.
    pub fn is_negative(self) -> bool
        ensures { result ≡ not (is_positive self) }
    {
        !self.is_positive()
    }

    /// Returns the literal with its variable replaced by the one that `f` returns.
    pub fn map_var<F: FnOnce(Var) -> Var>(self, f: F) -> Lit
        requires { F.pre f (variable self) }
        ensures { (v : ℕ) × F.post f (variable self) v × (result ≡ mk_lit v (is_positive self)) }
    {
        f(self.var()).lit(self.is_positive())
    }
}

impl Not for Lit {
    type Output = Lit;

    ghost use Rattle.sat_base.specs.values.Literals.{negated};

    ghost not_gives = { λ l r. r ≡ negated l };

    fn not(self) -> Lit {
        self ^ true
    }
}

impl BitXor<bool> for Lit {
    type Output = Lit;

    ghost use Rattle.sat_base.specs.values.Literals.{negated_if};

    ghost bitxor_gives = { λ l negate r. r ≡ negated_if negate l };

    fn bitxor(self, negate: bool) -> Lit {
        Lit {
            code: self.code ^ u32::from(negate),
        }
    }
}
