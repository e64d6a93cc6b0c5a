//! Tests of hashes, of sets of literals, and of what is recorded about variables.

use crate::calls::{Call, error_of};
use sat_base::{ClauseHash, HashBits, Lit, Var};
use sat_checker::sorted_lits::{copy_canonical, is_subset};
use sat_checker::unsorted_lits::include_both_signs;
use sat_checker::variables::Variables;
use sat_checker::{Checker, ClauseHasher};
use std::alloc::Global;

/// The hash of [1,2] for some widths.
static HASHES: [(u32, ClauseHash); 4] = [(64, 0x449114950295082a), (8, 0x44), (6, 17), (0, 0)];

/// Gives solver names to two variables, sets the width, and returns the hash of a clause of the two variables.
fn named_hash(hasher: &mut ClauseHasher, bits: HashBits) -> Option<ClauseHash> {
    let (first, second) = (Var::from_index(7), Var::from_index(5));
    let (two, one) = (Some(Var::from_index(1)), Some(Var::from_index(0)));
    hasher.set_solver_name(first, two).ok()?;
    hasher.set_solver_name(second, one).ok()?;
    hasher.set_bits(bits);
    Some(hasher.clause_hash(&[first.positive(), second.positive()]))
}

/// Returns the hash of a clause of two variables, whose solver names are 1 and 2.
fn hash_by_names(alloc: Global, width: u32) -> Option<ClauseHash> {
    let (whole, bits) = (HashBits::new(64)?, HashBits::new(width)?);
    let mut hasher = ClauseHasher::new(alloc, whole);
    named_hash(&mut hasher, bits)
}

fn hash(alloc: Global, width: u32) -> Option<ClauseHash> {
    let hasher = ClauseHasher::new(alloc, HashBits::new(width)?);
    Some(hasher.clause_hash(&[Lit::from_code(0), Lit::from_code(2)]))
}

#[test]
fn clauses_are_hashed(rt: HostRuntime) {
    for &(width, wanted) in &HASHES {
        let hashes = (hash(rt.alloc(), width), hash_by_names(rt.alloc(), width));
        assert!(rt; hashes == (Some(wanted), Some(wanted)), "{width}");
    }
}

fn lits(numbers: [i64; 3]) -> Option<[Lit; 3]> {
    Some([
        Lit::from_dimacs(numbers[0])?,
        Lit::from_dimacs(numbers[1])?,
        Lit::from_dimacs(numbers[2])?,
    ])
}

/// Returns `true` if literals have the given DIMACS numbers, in order.
fn have_numbers(lits: &[Lit], numbers: &[i64]) -> bool {
    if lits.len() != numbers.len() {
        return false;
    }
    for place in 0..lits.len() {
        if lits[place].to_dimacs() != numbers[place] {
            return false;
        }
    }
    true
}

/// Literals, their sorted set, and whether it contains both signs of a variable.
static SETS: [([i64; 3], &[i64], bool); 5] = [
    ([2, 1, 1], &[1, 2], false),
    ([-9999, 1, 9999], &[1, 9999, -9999], true),
    ([-1, 3, 1], &[1, -1, 3], true),
    ([2, 2, 2], &[2], false),
    ([-3, -1, 2], &[-1, 2, -3], false),
];

fn sets() -> &'static [([i64; 3], &'static [i64], bool)] {
    &SETS
}

/// Returns `true` if `copy_canonical` makes the sorted set `wanted`, and it and `include_both_signs` return `both`.
fn is_set_of(alloc: Global, numbers: [i64; 3], wanted: &[i64], both: bool) -> bool {
    let Some(lits) = lits(numbers) else {
        return false;
    };
    let mut set = Vec::new(alloc);
    let includes_both = include_both_signs(&lits);
    copy_canonical(&mut set, &lits) == Ok(both)
        && have_numbers(&set, wanted)
        && includes_both == both
}

#[test]
fn sets_are_sorted(rt: HostRuntime) {
    for &(numbers, wanted, both) in sets() {
        assert!(rt; is_set_of(rt.alloc(), numbers, wanted, both), "{wanted:?}");
    }
}

/// Two sets, whether the first is a subset of the second, and whether it is a strict one.
static PARTS: [([i64; 3], [i64; 3], bool, bool); 4] = [
    ([1, 2, 2], [2, 1, 3], true, true),
    ([1, 2, 3], [3, 2, 1], true, false),
    ([1, -2, 3], [3, 2, 1], false, false),
    ([1, 2, 3], [2, 1, 1], false, false),
];

fn parts() -> &'static [([i64; 3], [i64; 3], bool, bool)] {
    &PARTS
}

/// Returns whether the first literals, as a set, are a subset of the second ones, or a strict subset; or `None` if
/// memory runs out.
#[tactic(auto, using(sat_checker::proofs::lemmas::sets::Canonical::canonical_increasing))]
fn are_part(alloc: Global, first: &[Lit], second: &[Lit], strict: bool) -> Option<bool> {
    let mut part = Vec::new(alloc);
    let mut whole = Vec::new(alloc);
    copy_canonical(&mut part, first).ok()?;
    copy_canonical(&mut whole, second).ok()?;
    Some(is_subset(&part, &whole, strict))
}

fn is_part(alloc: Global, first: [i64; 3], second: [i64; 3], strict: bool) -> Option<bool> {
    are_part(alloc, &lits(first)?, &lits(second)?, strict)
}

#[test]
fn parts_are_reported(rt: HostRuntime) {
    for &(first, second, part, strict_part) in parts() {
        assert!(rt; is_part(rt.alloc(), first, second, false) == Some(part));
        assert!(rt; is_part(rt.alloc(), first, second, true) == Some(strict_part));
    }
}

/// What a checker reports about the first variable: its name, whether it is known, and whether it was deleted.
type Notice = (Option<usize>, bool, bool);

/// Steps, and what is reported after them.
static KNOWN: [(&[u8], Notice); 8] = [
    (&[], (None, false, false)),
    (&[2, 0, 5], (Some(4), true, false)),
    (&[2, 0, 5, 2, 0, 0], (None, true, false)),
    (&[2, 0, 5, 2, 0, 0, 2, 1, 5], (None, true, false)),
    (&[2, 0, 5, 2, 0, 0, 3, 0], (None, false, true)),
    (&[1, 0, 0], (None, false, false)),
    (&[1, 0, 5], (None, true, false)),
    (&[11, 1, 3, 11, 0, 3, 1], (None, false, true)),
];

fn rows_of_reported() -> &'static [(&'static [u8], Notice)] {
    &KNOWN
}

fn known_of(alloc: Global, text: &'static [u8]) -> Notice {
    let mut checker = Checker::new(alloc);
    let _incomplete = error_of(alloc, &mut checker, Call::Proof(text));
    let var = Var::from_index(0);
    let name = checker.user_name(var).map(|name| name.index());
    let known = (name, checker.knows(var), checker.var_deleted());
    drop(checker);
    known
}

#[test]
fn variables_are_reported(rt: HostRuntime) {
    for (text, wanted) in rows_of_reported() {
        assert!(rt; known_of(rt.alloc(), *text) == *wanted, "{text:?}");
    }
}

/// Returns `true` if a variable has a name until the name is removed, and is still known afterwards.
fn is_held(variables: &mut Variables) -> bool {
    let (var, name) = (Var::from_index(0), Var::from_index(4));
    variables.ensure_var(var) == Ok(())
        && variables.add_user_mapping(var, name) == Ok(true)
        && variables.holder(name) == Some(var)
        && variables.remove_user_mapping(var) == Ok(true)
        && variables.holder(name).is_none()
        && variables.data(var).known
}

#[test]
fn names_are_held(rt: HostRuntime) {
    let mut variables = Variables::new(rt.alloc());
    assert!(rt; is_held(&mut variables));
}
