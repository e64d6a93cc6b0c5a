//! Variables, and optional variables that are packed into one number.
ghost use Rattle.std.specs.Prelude.{◌≡◌, ◌+◌, ◌<◌, true, false, MatchOption, None, pos};
ghost use Rattle.sat_base.specs.values.Literals.{mk_lit, var_limit};
ghost use Rattle.sat_base.specs.values.Numerals.{IsNotVariableNumber};

use crate::Lit;
use std::fmt;
use std::marker::Model;

/// The largest number of variables.
pub(crate) const MAX_COUNT: usize = 1 << 28;

/// A variable. Contracts see the variable's index, which is from 0 to 2^28 - 1.
#[derive(Clone, Copy, Debug, PartialEq, Eq, PartialOrd, Ord, Hash)]
pub struct Var {
    index: u32,
}

impl Model for Var {
    ghost use Rattle.std.specs.Prelude.{ℕ, ◌<◌};
    ghost use Rattle.sat_base.specs.values.Literals.{var_limit};

    ghost Value = { ℕ };

    ghost view = { λ v. v.index };

    ghost inverse = { λ n. record { index = n } };

    ghost invariant = { λ v. v.index < var_limit };
}

/// Writes the number of the variable in DIMACS, such as `3` for the variable with index 2.
impl fmt::Display for Var {
    fn fmt<W: fmt::Write>(&self, f: &mut fmt::Formatter<W>) -> fmt::Result {
        write!(f, "{}", self.to_dimacs())
    }
}

impl Var {
    /// Returns the variable with this index.
    pub fn from_index(index: usize) -> Var
        requires { index < var_limit }
        ensures { result ≡ index }
    {
        Var {
            index: index as u32,
        }
    }

    /// Returns the index. The lowest index is 0.
    pub fn index(self) -> usize
        ensures value { result ≡ self }
        ensures bound { result < var_limit }
    {
        self.index as usize
    }

    /// Returns the variable with this number in DIMACS, where variables are numbered from 1. Returns `None` if the
    /// number is below 1 or above 2^28.
    pub fn from_dimacs(number: i64) -> Option<Var>
        ensures { MatchOption result (IsNotVariableNumber number) (λ v. number ≡ pos (v + 1)) }
    {
        if number < 1 || number > MAX_COUNT as i64 {
            return None;
        }
        Some(Var {
            index: (number - 1) as u32,
        })
    }

    /// Returns the number of the variable in DIMACS, where variables are numbered from 1.
    pub fn to_dimacs(self) -> i64
        ensures value { result ≡ pos (self + 1) }
        ensures bound { self < var_limit }
    {
        self.index as i64 + 1
    }

    /// Returns the positive literal of the variable if `positive` is true, and the negative one otherwise.
    pub fn lit(self, positive: bool) -> Lit
        ensures { result ≡ mk_lit self positive }
    {
        Lit::from_var(self, positive)
    }

    /// Returns the positive literal of the variable.
    pub fn positive(self) -> Lit
        ensures { result ≡ mk_lit self true }
    {
        self.lit(true)
    }

    /// Returns the negative literal of the variable.
    pub fn negative(self) -> Lit
        ensures { result ≡ mk_lit self false }
    {
        self.lit(false)
    }

    /// Returns the largest number of variables, which is also the largest variable number in DIMACS.
    pub const fn max_count() -> usize
        ensures { result ≡ var_limit }
    {
        MAX_COUNT
    }
}

/// An optional variable in 4 bytes. Contracts see an `Option`.
///
/// An `Option<Var>` takes 8 bytes.
#[derive(Clone, Copy, Debug, PartialEq, Eq)]
pub struct MaybeVar {
    /// One more than the variable's index, or 0 if there is no variable.
    above: u32,
}

impl Model for MaybeVar {
    ghost use Rattle.std.specs.Prelude.{ℕ, ◌≤◌, Option};
    ghost use Rattle.sat_base.specs.values.Literals.{var_limit};
    ghost use Rattle.sat_base.specs.values.Packed.{packed, unpacked, packed_unpacked};

    ghost Value = { Option ℕ };

    ghost view = { λ v. unpacked v.above };

    ghost inverse = { λ o. record { above = packed o } };

    ghost inverse_ok = { λ v _ i. record { above = packed_unpacked v.above i } };

    ghost invariant = { λ v. v.above ≤ var_limit };
}

impl MaybeVar {
    /// Returns no variable.
    #[inline(always)]
    pub fn none() -> MaybeVar
        ensures { result ≡ None }
    {
        MaybeVar { above: 0 }
    }

    /// Returns an optional variable, packed.
    #[inline(always)]
    pub fn new(var: Option<Var>) -> MaybeVar
        ensures { result ≡ var }
    {
        match var {
            Some(var) => MaybeVar {
                above: var.index + 1,
            },
            None => MaybeVar { above: 0 },
        }
    }

    /// Returns the variable, or `None` if there is none.
    #[inline(always)]
    pub fn get(self) -> Option<Var>
        ensures { result ≡ self }
    {
        if self.above == 0 {
            return None;
        }
        Some(Var {
            index: self.above - 1,
        })
    }
}
