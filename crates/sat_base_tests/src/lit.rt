//! Tests of conversions from numbers, and of each function of variables and literals.
ghost use Rattle.std.specs.Prelude.{◌<◌, ◌*◌};
ghost use Rattle.sat_base.specs.values.Literals.{var_limit};

use crate::errors::is_printed;
use sat_base::{Lit, MaybeVar, Var, clause_hash, lit_hash, order_of_literals, order_of_variables};
use std::cmp::Ordering;
use std::hash::{DefaultHasher, Hash, Hasher};
use std::test::*;

fn index_of(number: i64) -> Option<usize> {
    Some(Var::from_dimacs(number)?.index())
}

/// Returns the first number that converts to a variable, or `None`.
fn first_of_variable(numbers: &[i64]) -> Option<i64> {
    for &number in numbers {
        if Var::from_dimacs(number).is_some() {
            return Some(number);
        }
    }
    None
}

#[test]
fn numbers_of_variables(rt: HostRuntime) {
    assert!(rt; (index_of(1), index_of(268_435_456)) == (Some(0), Some(268_435_455)));
    let wrong = first_of_variable(&[0, -1, 268_435_457, i64::MAX, i64::MIN]);
    assert!(rt; wrong == None, "{wrong:?}");
    assert!(rt; (Var::from_index(6).to_dimacs(), Var::max_count()) == (7, 268_435_456));
}

#[test]
fn numbers_are_printed(rt: HostRuntime) {
    let (third, last) = (
        Lit::from_index(2, false),
        Lit::from_index(268_435_455, true),
    );
    assert!(rt; is_printed(rt.alloc(), &third, "-3"));
    assert!(rt; is_printed(rt.alloc(), &last, "268435456"));
    assert!(rt; is_printed(rt.alloc(), &Var::from_index(0), "1"));
}

#[test]
fn optional_variables(rt: HostRuntime) {
    let last = Var::from_index(268_435_455);
    let found = (MaybeVar::new(Some(last)).get(), MaybeVar::none().get());
    assert!(rt; found == (Some(last), None), "{found:?}");
    assert!(rt; MaybeVar::new(None) == MaybeVar::none());
}

/// Returns the first number that converts to a literal, or `None`.
fn first_of_literal(numbers: &[i64]) -> Option<i64> {
    for &number in numbers {
        if Lit::from_dimacs(number).is_some() {
            return Some(number);
        }
    }
    None
}

/// Returns `true` if the literal with the DIMACS number `number` has the code `code`, and vice versa.
fn have(number: i64, code: usize) -> bool
    requires { code < 2 * var_limit }
{
    match Lit::from_dimacs(number) {
        Some(lit) => lit.code() == code && Lit::from_code(code).to_dimacs() == number,
        None => false,
    }
}

#[test]
fn numbers_of_literals(rt: HostRuntime) {
    for (number, code) in [
        (1, 0),
        (-1, 1),
        (2, 2),
        (-2, 3),
        (-268_435_456, 536_870_911),
    ] {
        assert!(rt; have(number, code), "{number}");
    }
    let wrong = first_of_literal(&[0, 268_435_457, -268_435_457, i64::MAX, i64::MIN]);
    assert!(rt; wrong == None, "{wrong:?}");
}

#[test]
fn literals_of_a_variable(rt: HostRuntime) {
    let var = Var::from_index(4);
    let lit = Lit::from_var(var, false);
    let found = [lit, lit, !lit, !lit];
    let wanted = [
        var.negative(),
        Lit::negative(var),
        Lit::positive(var),
        var.positive(),
    ];
    assert!(rt; found == wanted, "{found:?} for {wanted:?}");
    let parts = (lit.var(), lit.index(), lit.is_negative(), lit.is_positive());
    assert!(rt; parts == (var, 4, true, false));
}

#[test]
fn changed_literals(rt: HostRuntime) {
    let var = Var::from_index(4);
    let lit = var.negative();
    assert!(rt; [lit ^ true, lit ^ false] == [var.lit(true), Lit::from_index(4, false)]);
    let halved = lit.map_var(|v| Var::from_index(v.index() / 2));
    assert!(rt; halved == Lit::from_index(2, false));
    assert!(rt; var.positive() < lit && lit < Var::from_index(5).positive());
}

fn hash_of<T: Hash>(value: &T) -> u64 {
    let mut hasher = DefaultHasher::new();
    value.hash(&mut hasher);
    hasher.finish()
}

/// Returns `true` if a variable is ordered before the next one, and so are their literals, with the positive literal of
/// each variable first.
fn are_ordered(var: Var, next: Var) -> bool {
    order_of_variables(var, next) == Ordering::Less
        && order_of_literals(var.positive(), var.negative()) == Ordering::Less
        && order_of_literals(var.negative(), next.positive()) == Ordering::Less
        && order_of_literals(!var.positive(), var.negative()) == Ordering::Equal
}

#[test]
fn order_and_hash(rt: HostRuntime) {
    let var = Var::from_index(4);
    assert!(rt; are_ordered(var, Var::from_index(5)));
    assert!(rt; hash_of(&Lit::from_code(9).var()) == hash_of(&var));
    assert!(rt; hash_of(&!var.positive()) == hash_of(&var.negative()));
}

#[test]
fn hashes(rt: HostRuntime) {
    let one = Var::from_index(0).positive();
    let two = Var::from_index(1).positive();
    assert!(rt; lit_hash(one) == 0x9e37_79b9_7f4a_7c15);
    assert!(rt; clause_hash(&[one, two]) == 0x4491_1495_0295_082a);
    assert!(rt; clause_hash(&[two, one]) == 0x4491_1495_0295_082a);
    assert!(rt; clause_hash(&[]) == 0);
}
