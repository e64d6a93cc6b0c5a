//! Tests of a store: clauses of three, four and five literals are added and removed, the width changes, and the
//! remaining clauses are found.
use sat_base::{HashBits, Lit};
use sat_checker::Looks;
use sat_checker::sorted_lits::copy_canonical;
use sat_checker::store::Store;
use sat_checker::store::links::Pair;
use std::alloc::{AllocError, Global};

/// The number of clauses that are stored.
const COUNT: u8 = 30;

/// Returns `true` if the clause with the number `number` remains.
fn is_left(number: u8) -> bool {
    number / 3 % 3 == 0
}

/// Replaces `clause` by the literals of clause number `number`: three, four or five.
fn fill(clause: &mut Vec<Lit>, number: u8) -> Result<(), AllocError> {
    clause.clear();
    let first = number as i64 * 2 + 1;
    for place in 0..3 + number % 3 {
        if let Some(lit) = Lit::from_dimacs(first + place as i64) {
            clause.push(lit)?;
        }
    }
    Ok(())
}

fn put(
    store: &mut Store,
    number: u8,
    clause: &mut Vec<Lit>,
    sorted: &mut Vec<Lit>,
    looks: &mut Looks,
) -> Result<bool, AllocError> {
    fill(clause, number)?;
    copy_canonical(sorted, clause)?;
    Ok(
        store
            .store_clause(number as u64, false, sorted, looks)
            .is_ok(),
    )
}

fn put_all(
    store: &mut Store,
    clause: &mut Vec<Lit>,
    sorted: &mut Vec<Lit>,
    looks: &mut Looks,
) -> Result<bool, AllocError> {
    for number in 0..COUNT {
        if !put(store, number, clause, sorted, looks)? {
            return Ok(false);
        }
    }
    Ok(true)
}

/// Deletes the clauses that don't remain, which are more than half of all clauses.
fn take_most(
    store: &mut Store,
    clause: &mut Vec<Lit>,
    looks: &mut Looks,
) -> Result<bool, AllocError> {
    for number in 0..COUNT {
        if is_left(number) {
            continue;
        }
        fill(clause, number)?;
        if !store.delete_clause(false, clause, looks) {
            return Ok(false);
        }
    }
    Ok(true)
}

/// Returns the id of the clause with the given literals, or `None` if it isn't stored.
fn id_of(store: &Store, clause: &[Lit], looks: &mut Looks) -> Option<u64> {
    match store.stored(clause, looks) {
        Some(found) => Some(found.id),
        None => None,
    }
}

/// Returns `true` if exactly the remaining clauses are found, each with its id.
fn finds_left(store: &Store, clause: &mut Vec<Lit>, looks: &mut Looks) -> Result<bool, AllocError> {
    for number in 0..COUNT {
        fill(clause, number)?;
        let wanted = if is_left(number) {
            Some(number as u64)
        } else {
            None
        };
        if id_of(store, clause, looks) != wanted {
            return Ok(false);
        }
    }
    Ok(true)
}

/// Returns `true` if there are `count` pairs, in order of their places, which are below half of the number of clauses.
fn are_sorted(pairs: &[Pair], count: usize) -> bool {
    for place in 0..pairs.len() {
        if pairs[place].place >= 15 {
            return false;
        }
        if place > 0 && pairs[place].place <= pairs[place - 1].place {
            return false;
        }
    }
    pairs.len() == count
}

/// Sets the width. Returns whether exactly the remaining clauses are found.
fn finds_at(
    store: &mut Store,
    width: u32,
    clause: &mut Vec<Lit>,
    looks: &mut Looks,
) -> Result<bool, AllocError> {
    let Some(bits) = HashBits::new(width) else {
        return Ok(false);
    };
    store.set_bits(bits);
    store.rehash_if_needed(looks);
    finds_left(store, clause, looks)
}

fn lists(store: &Store, pairs: &mut Vec<Pair>) -> Result<bool, AllocError> {
    pairs.clear();
    store.clauses.index().list(pairs)?;
    Ok(are_sorted(pairs, 12))
}

/// Returns whether the remaining clauses are found with hashes of 64, 8, 2 and 0 bits, and their pairs are listed
/// in order.
fn valid(
    store: &mut Store,
    clause: &mut Vec<Lit>,
    sorted: &mut Vec<Lit>,
    pairs: &mut Vec<Pair>,
    looks: &mut Looks,
) -> Result<bool, AllocError> {
    let begun = put_all(store, clause, sorted, looks)? && take_most(store, clause, looks)?;
    store.compact(looks)?;
    if !begun || !finds_left(store, clause, looks)? {
        return Ok(false);
    }
    for width in [8, 2, 0] {
        if !finds_at(store, width, clause, looks)? || !lists(store, pairs)? {
            return Ok(false);
        }
    }
    Ok(true)
}

fn what_is_left_stands(alloc: Global) -> bool {
    let mut store = Store::new(alloc);
    let mut looks = Looks::new();
    let (mut clause, mut sorted) = (Vec::new(alloc), Vec::new(alloc));
    let mut pairs = Vec::new(alloc);
    let answer = valid(&mut store, &mut clause, &mut sorted, &mut pairs, &mut looks);
    answer == Ok(true)
}

#[test]
fn clauses_that_are_left_are_found(rt: HostRuntime) {
    assert!(rt; what_is_left_stands(rt.alloc()));
}
