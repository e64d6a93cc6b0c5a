//! Tests of the clause that the last conflict of a search gives, and of what was used for it, against values found
//! by hand.

use crate::searcher::{no_room, search};
use sat_base::{Counted, Lit};
use sat_solver::SolverConfig;
use sat_solver::inner::{Context, Proof, Search, Variables, new_search};
use std::alloc::Global;

/// Clauses; the codes of the learned clause, beginning with the literal that it asserts; the codes of the literals
/// whose reasons were used, beginning with those used for minimization; and how many long clauses took part.
type Row = (
    &'static [&'static [usize]],
    &'static [usize],
    &'static [usize],
    usize,
);

/// Decisions are made in the order of indices, and make variables false.
const ROWS: &[Row] = &[
    // -1 is decided. 2 follows from it, and falsifies the second clause.
    (&[&[0, 2], &[0, 3]], &[0], &[2], 0),
    // -1 and -2 are decided. 3 follows from the first clause, and falsifies the second.
    (&[&[0, 2, 4], &[0, 2, 5]], &[2, 0], &[4], 2),
    // -1 is decided, and 2 follows. -3 is decided, 4 follows, and falsifies the last clause. -2 is dropped, as it is
    // implied by 1.
    (&[&[0, 2], &[3, 4, 6], &[0, 4, 7]], &[4, 0], &[2, 6], 2),
    // -1 and -2 are decided. 3 follows, 4 and 5 follow from 3, and falsify the last clause: 3 is the first
    // implication point.
    (
        &[&[0, 2, 4], &[5, 6], &[5, 8], &[0, 7, 9]],
        &[5, 0],
        &[6, 8],
        1,
    ),
];

/// Returns `true` if the literals have the codes `codes`, in order.
fn are_codes(lits: &[Lit], codes: &[usize]) -> bool {
    if lits.len() != codes.len() {
        return false;
    }
    for at in 0..codes.len() {
        if lits[at].code() != codes[at] {
            return false;
        }
    }
    true
}

/// Returns `true` if the last conflict gave what `row` has.
fn is_analysis(search: &Search, row: &Row) -> bool {
    let analysis = &search.analysis;
    are_codes(analysis.clause(), row.1)
        && are_codes(analysis.used(), row.2)
        && analysis.antecedents().len() == row.3
}

/// Returns `true` if a search over the clauses of `row` finds an answer, and its last conflict gave what `row` has.
fn is_right(alloc: Global, row: &Row) -> bool {
    let mut names = Variables::new(alloc);
    let mut core: Context<Counted<Vec<u8>>> = Context {
        proof: Proof::new(alloc),
        search: new_search(alloc),
        config: SolverConfig::default(),
    };
    let mut room = no_room(alloc);
    search(&mut core, &mut names, row.0, &mut room) && is_analysis(&core.search, row)
}

/// Returns the index of the first row that isn't right, or `None`.
fn first_wrong(alloc: Global) -> Option<usize> {
    for at in 0..ROWS.len() {
        if !is_right(alloc, &ROWS[at]) {
            return Some(at);
        }
    }
    None
}

#[test]
fn conflicts_give_the_clause_by_hand(rt: HostRuntime) {
    assert!(rt; first_wrong(rt.alloc()) == None);
}
