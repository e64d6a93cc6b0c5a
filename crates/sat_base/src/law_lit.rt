//! Laws about how variables and literals are ordered and hashed.
ghost use Rattle.std.specs.Ordering.{nat_cmp};
ghost use Rattle.std.specs.Prelude.{◌≡◌, IsTrue, fold};
ghost use Rattle.std.specs.Hash.DefaultHasher as sip;

use crate::{Lit, Var};
use std::cmp::Ordering;
use std::hash::{DefaultHasher, Hash, Hasher};

/// Returns the order of two variables. States that variables are ordered by their indices.
pub fn order_of_variables(a: Var, b: Var) -> Ordering
    ensures { result ≡ nat_cmp a b }
{
    a.cmp(&b)
}

/// Returns the order of two literals. States that literals are ordered by their codes: by variable, with the positive
/// literal first.
pub fn order_of_literals(l: Lit, m: Lit) -> Ordering
    ensures { result ≡ nat_cmp l m }
{
    l.cmp(&m)
}

/// Returns the hash of a single value.
fn fed<T: Hash>(value: &T) -> u64
    ensures { result ≡ sip.finish (fold sip.write sip.initial (T.hash_input value.now)) }
{
    let mut state = DefaultHasher::new();
    value.hash(&mut state);
    state.finish()
}

/// Returns `true`. States that equal variables have the same hash.
pub fn equal_variables_hash_alike(a: &Var, b: &Var) -> bool
    ensures { IsTrue result }
{
    *a != *b || fed(a) == fed(b)
}

/// Returns `true`. States that equal literals have the same hash.
pub fn equal_literals_hash_alike(l: &Lit, m: &Lit) -> bool
    ensures { IsTrue result }
{
    *l != *m || fed(l) == fed(m)
}
