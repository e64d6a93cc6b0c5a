//! Tests of steps in bytes, grouped by the kind of the last step.

use crate::calls::Answer;
use crate::kinds::Kind;
use crate::{proofs, steps};
use std::alloc::Global;

/// Steps, and their result: the first error, whether unsat is recorded, and whether `End` was accepted.
pub(crate) type Row = (&'static [u8], Answer);

const ENDED: Answer = (None, false, true);

const REFUTED: Answer = (None, true, true);

const GOES_ON: Answer = (None, false, false);

const REFUSED: Answer = (Some(Kind::CheckFailed), false, false);

const UNSAT: Answer = (None, true, false);

/// A step is refused, and unsat is recorded.
const UNSAT_REFUSED: Answer = (Some(Kind::CheckFailed), true, false);

/// Returns the result of steps that are read as a proof, which is incomplete if they are accepted and none is `End`.
fn proof_answer((error, unsat, ended): Answer) -> Answer {
    if error.is_none() && !ended {
        (Some(Kind::ProofIncomplete), unsat, ended)
    } else {
        (error, unsat, ended)
    }
}

/// Returns the results of an empty clause and of an end after the steps: nothing is accepted after a refused step.
fn following((error, unsat, ended): Answer) -> (Answer, Answer) {
    if error.is_some() {
        let failed = (Some(Kind::HasFailed), unsat, ended);
        (failed, failed)
    } else {
        ((None, true, ended), (None, unsat, true))
    }
}

/// Returns `true` if steps have the result of `row`, one by one and as a proof, and what follows them has the expected
/// result.
fn is_answered(alloc: Global, row: &Row) -> bool {
    let (clause, end) = following(row.1);
    steps::is_answered(alloc, row.0, row.1, clause)
        && proofs::is_answered(alloc, row.0, proof_answer(row.1), end)
}

/// Returns the steps of the first row that has another result, or `None`.
fn first_unanswered(alloc: Global, rows: &[Row]) -> Option<&'static [u8]> {
    for row in rows {
        if !is_answered(alloc, row) {
            return Some(row.0);
        }
    }
    None
}

/// Complete proofs.
static PROOFS: [Row; 8] = [
    (&[0x0d], ENDED),
    // A hidden variable is given a name again, which the checker accepts.
    (
        &[
            0x02, 0x00, 0x01, 0x05, 0x01, 0x00, 0x02, 0x00, 0x00, 0x04, 0x00, 0x01, 0x02, 0x00,
            0x01, 0x05, 0x01, 0x01, 0x0d,
        ],
        REFUTED,
    ),
    // The four clauses over two variables, at width 8.
    (
        &[
            0x02, 0x00, 0x01, 0x01, 0x00, 0x01, 0x02, 0x01, 0x02, 0x01, 0x01, 0x02, 0x05, 0x02,
            0x00, 0x02, 0x05, 0x02, 0x00, 0x03, 0x05, 0x02, 0x01, 0x02, 0x05, 0x02, 0x01, 0x03,
            0x0b, 0x00, 0x09, 0x08, 0x06, 0x00, 0x01, 0x00, 0x02, 0x44, 0xe6, 0x01, 0x07, 0x01,
            0x02, 0xe6, 0x01, 0x06, 0x00, 0x00, 0x01, 0x44, 0x0b, 0x00, 0x0d,
        ],
        REFUTED,
    ),
    // The same clauses at width 0, where every derived clause names the hash 0 once.
    (
        &[
            5, 2, 0, 2, 5, 2, 0, 3, 5, 2, 1, 2, 5, 2, 1, 3, 9, 0, 6, 0, 1, 0, 1, 0, 6, 0, 0, 1, 0,
        ],
        UNSAT,
    ),
    // At width 0, one pass over the clauses is not enough, but two are.
    (
        &[
            5, 3, 3, 4, 6, 5, 2, 0, 2, 5, 2, 3, 7, 9, 0, 6, 0, 2, 0, 4, 1, 0,
        ],
        REFUSED,
    ),
    (
        &[
            5, 3, 3, 4, 6, 5, 2, 0, 2, 5, 2, 3, 7, 9, 0, 6, 0, 2, 0, 4, 2, 0, 0,
        ],
        GOES_ON,
    ),
    // An end after an end, and after unsat was recorded.
    (&[13, 13], ENDED),
    (&[5, 0, 13], REFUTED),
];

/// Solver names, and the user's names.
static NAMES: [Row; 25] = [
    // With a solver name, a variable is known; a step without one leaves it unknown.
    (&[1, 0, 1, 4, 0, 1], GOES_ON),
    (&[1, 0, 0], GOES_ON),
    (&[1, 0, 0, 4, 0, 1], REFUSED),
    // A solver name is set, replaced and removed. Two variables may have the same solver name.
    (&[1, 0, 1, 1, 0, 2, 1, 0, 0], GOES_ON),
    (&[1, 0, 1, 1, 1, 1], GOES_ON),
    // Clauses are hashed with the solver name, even those stored earlier, until it is removed.
    (
        &[
            9, 8, 1, 3, 1, 1, 6, 2, 5, 2, 6, 12, 5, 2, 6, 13, 6, 0, 1, 6, 2, 0x44, 0xe6, 1,
        ],
        GOES_ON,
    ),
    (
        &[
            9, 8, 5, 2, 6, 12, 5, 2, 6, 13, 1, 3, 1, 1, 6, 2, 6, 0, 1, 6, 2, 0x44, 0xe6, 1,
        ],
        GOES_ON,
    ),
    (
        &[9, 8, 5, 2, 6, 12, 5, 2, 6, 13, 6, 0, 1, 6, 2, 0x44, 0xe6, 1],
        REFUSED,
    ),
    (
        &[
            9, 8, 1, 3, 1, 1, 6, 2, 5, 2, 6, 12, 5, 2, 6, 13, 1, 3, 0, 6, 0, 1, 6, 2, 0x44, 0xe6, 1,
        ],
        REFUSED,
    ),
    // A deleted variable still has its solver name.
    (
        &[
            9, 8, 1, 3, 1, 1, 6, 2, 3, 3, 3, 6, 5, 2, 6, 12, 5, 2, 6, 13, 6, 0, 1, 6, 2, 0x44,
            0xe6, 1,
        ],
        GOES_ON,
    ),
    // A user name for an unknown variable, for a sampling variable and for a witness.
    (&[2, 0, 1, 4, 0, 1], GOES_ON),
    (&[5, 1, 0, 2, 0, 1], GOES_ON),
    (&[5, 1, 0, 4, 0, 0, 2, 0, 1], GOES_ON),
    // The name of another variable; names for a variable that has one; a name for a hidden variable.
    (&[2, 0, 1, 2, 1, 1], REFUSED),
    (&[2, 0, 1, 2, 0, 2], REFUSED),
    (&[2, 0, 1, 2, 0, 1], REFUSED),
    (&[2, 0, 1, 2, 0, 0, 2, 0, 1], REFUSED),
    // A name for a variable that is no longer hidden, and a name that is free again.
    (&[2, 0, 1, 2, 0, 0, 4, 0, 1, 2, 0, 2], GOES_ON),
    (&[2, 0, 1, 2, 0, 0, 2, 1, 1], GOES_ON),
    (&[2, 0, 1, 2, 0, 0, 3, 0, 2, 1, 1], GOES_ON),
    // A name is removed from a variable that has one, from an unknown variable, from a known variable without one, and
    // from a hidden variable.
    (&[2, 0, 1, 2, 0, 0], GOES_ON),
    (&[2, 0, 0], REFUSED),
    (&[5, 1, 0, 2, 0, 0], REFUSED),
    (&[2, 0, 1, 2, 0, 0, 2, 0, 0], REFUSED),
    (&[2, 0, 1, 2, 0, 0, 2, 1, 1, 2, 0, 0], REFUSED),
];

/// Variables that are deleted, and their modes.
static VARIABLES: [Row; 24] = [
    // Variables that are unknown, named, in a clause, in a redundant clause, or assumed.
    (&[3, 0], REFUSED),
    (&[2, 0, 1, 3, 0], REFUSED),
    (&[5, 2, 0, 2, 3, 0], REFUSED),
    (&[5, 2, 0, 2, 3, 1], REFUSED),
    (&[9, 0, 5, 2, 0, 2, 6, 1, 3, 0, 2, 4, 1, 0, 3, 2], REFUSED),
    (&[11, 1, 0, 3, 0], REFUSED),
    (&[11, 2, 2, 1, 3, 0], REFUSED),
    // Variables that are known; no longer assumed; no longer in a clause; no longer named; and in a unit, which
    // is removed.
    (&[10, 1, 0, 3, 0], GOES_ON),
    (&[11, 1, 0, 11, 0, 3, 0], GOES_ON),
    (
        &[
            9, 0, 5, 2, 0, 2, 6, 1, 3, 0, 2, 4, 1, 0, 8, 3, 0, 2, 4, 0, 3, 2,
        ],
        GOES_ON,
    ),
    (&[5, 2, 0, 1, 3, 0], GOES_ON),
    (&[2, 0, 1, 2, 0, 0, 3, 0], GOES_ON),
    (&[5, 1, 0, 3, 0, 5, 1, 1], GOES_ON),
    (&[5, 1, 0, 5, 1, 1, 3, 0, 5, 1, 0], UNSAT),
    // Once deleted, a variable is unknown again, and is a sampling variable when it is used again.
    (&[11, 1, 0, 11, 0, 3, 0, 3, 0], REFUSED),
    (&[11, 1, 0, 11, 0, 3, 0, 4, 0, 1], REFUSED),
    (&[2, 0, 1, 2, 0, 0, 3, 0, 5, 1, 0], GOES_ON),
    // Modes of unknown variables, of known ones, of a hidden variable and of a variable with a name.
    (&[4, 0, 1], REFUSED),
    (&[4, 0, 0], REFUSED),
    (&[5, 1, 0, 4, 0, 0], GOES_ON),
    (&[5, 1, 0, 4, 0, 0, 4, 0, 1, 5, 1, 0], GOES_ON),
    (&[2, 0, 1, 2, 0, 0, 4, 0, 1, 5, 1, 0], GOES_ON),
    (&[2, 0, 1, 2, 0, 0, 4, 0, 0, 5, 1, 0], REFUSED),
    (&[2, 0, 1, 4, 0, 0, 4, 0, 1], GOES_ON),
];

/// Clauses of the formula, derived clauses, and units.
static CLAUSES: [Row; 42] = [
    // Clauses of unknown and sampling variables, of a witness, and of a hidden variable.
    (&[5, 1, 0, 5, 2, 2, 0], GOES_ON),
    (&[5, 1, 0, 4, 0, 0, 5, 1, 0], REFUSED),
    (&[5, 1, 0, 4, 0, 0, 5, 2, 2, 0], REFUSED),
    (&[2, 0, 1, 2, 0, 0, 5, 1, 0], REFUSED),
    // After unsat was recorded, every clause is accepted, and has no effect.
    (&[5, 1, 0, 4, 0, 0, 5, 0, 5, 1, 0], UNSAT),
    (&[5, 0, 5, 1, 0, 4, 0, 1], UNSAT_REFUSED),
    (&[5, 0, 5, 1, 0, 6, 0, 1, 0, 0], UNSAT_REFUSED),
    // An empty clause, a tautology, and a clause that contradicts another.
    (&[5, 0], UNSAT),
    (&[5, 2, 0, 1], GOES_ON),
    (&[5, 1, 0, 5, 1, 1], UNSAT),
    // A clause that was added twice is stored; another clause does not follow.
    (&[5, 2, 0, 2, 5, 3, 2, 0, 0, 6, 0, 1, 4, 0], REFUSED),
    // A tautology follows, and is not stored.
    (&[6, 0, 2, 0, 1, 0], GOES_ON),
    (&[6, 0, 2, 0, 1, 0, 4, 0, 1], GOES_ON),
    (&[6, 1, 2, 0, 1, 0, 8, 2, 0, 1, 0], REFUSED),
    (&[9, 0, 6, 0, 2, 0, 1, 1, 0], GOES_ON),
    // A clause that a unit satisfies follows, even with an empty bucket; a clause in which the unit is false does not.
    (&[5, 1, 0, 6, 0, 2, 0, 2, 0], GOES_ON),
    (&[9, 0, 5, 1, 0, 6, 0, 2, 2, 0, 1, 0], GOES_ON),
    (&[5, 1, 0, 6, 0, 2, 1, 2, 0], REFUSED),
    // The clauses of the buckets lead to a conflict, or they don't.
    (
        &[9, 8, 5, 2, 0, 2, 5, 2, 0, 3, 6, 0, 1, 0, 2, 0x44, 0xe6, 1],
        GOES_ON,
    ),
    (
        &[9, 8, 5, 2, 0, 2, 5, 2, 0, 3, 6, 0, 1, 0, 2, 0xe6, 1, 0x44],
        GOES_ON,
    ),
    (
        &[9, 8, 5, 2, 0, 2, 5, 2, 0, 3, 6, 0, 1, 0, 1, 0x44],
        REFUSED,
    ),
    (&[9, 8, 5, 2, 0, 2, 5, 2, 0, 3, 6, 0, 1, 0, 0], REFUSED),
    // An empty bucket before the conflict, and after it.
    (
        &[
            9, 8, 5, 2, 0, 2, 5, 2, 0, 3, 6, 0, 1, 0, 3, 0, 0x44, 0xe6, 1,
        ],
        REFUSED,
    ),
    (
        &[
            9, 8, 5, 2, 0, 2, 5, 2, 0, 3, 6, 0, 1, 0, 3, 0x44, 0, 0xe6, 1,
        ],
        REFUSED,
    ),
    (
        &[
            9, 8, 5, 2, 0, 2, 5, 2, 0, 3, 6, 0, 1, 0, 3, 0x44, 0xe6, 1, 0,
        ],
        GOES_ON,
    ),
    // A bucket of two clauses. Only the second clause is falsified; a unit satisfies the other clause.
    (
        &[9, 0, 5, 2, 4, 6, 5, 2, 0, 2, 6, 0, 2, 0, 2, 1, 0],
        GOES_ON,
    ),
    (&[9, 0, 5, 1, 4, 5, 2, 4, 0, 6, 0, 1, 0, 1, 0], REFUSED),
    // A clause that was derived twice is stored twice.
    (
        &[
            9, 0, 5, 2, 0, 2, 6, 1, 3, 0, 2, 4, 1, 0, 6, 1, 3, 4, 2, 0, 1, 0, 8, 3, 0, 2, 4, 0, 8,
            3, 0, 2, 4, 0,
        ],
        GOES_ON,
    ),
    // A check that passes does not change the units.
    (&[9, 0, 5, 2, 0, 2, 6, 0, 2, 0, 2, 1, 0, 10, 1, 2], GOES_ON),
    (
        &[9, 0, 5, 2, 0, 2, 6, 0, 2, 0, 2, 1, 0, 6, 0, 1, 1, 0],
        REFUSED,
    ),
    // An empty clause is derived.
    (&[9, 0, 5, 2, 0, 2, 5, 1, 1, 5, 1, 3, 6, 0, 0, 1, 0], UNSAT),
    (&[9, 0, 5, 2, 0, 2, 5, 1, 1, 6, 0, 0, 1, 0], REFUSED),
    // Units, each with its own hash.
    (&[9, 0, 5, 1, 0, 5, 2, 1, 2, 7, 1, 2, 0], GOES_ON),
    (&[9, 0, 5, 1, 0, 5, 2, 1, 2, 7, 1, 4, 0], REFUSED),
    (&[7, 0], GOES_ON),
    // A unit that is already stored, with an empty bucket, and its negation.
    (&[5, 1, 0, 7, 1, 0, 0], GOES_ON),
    (&[5, 1, 0, 7, 1, 1, 0], REFUSED),
    // Units. The second is derived from the first.
    (
        &[
            9, 8, 1, 2, 1, 5, 1, 0, 5, 2, 1, 2, 5, 2, 3, 5, 7, 2, 2, 0xe6, 1, 5, 0x44,
        ],
        GOES_ON,
    ),
    (
        &[
            9, 8, 1, 2, 1, 5, 1, 0, 5, 2, 1, 2, 5, 2, 3, 5, 7, 2, 5, 0x44, 2, 0xe6, 1,
        ],
        REFUSED,
    ),
    // Two units that contradict each other: the second records unsat.
    (
        &[9, 0, 5, 1, 0, 5, 2, 1, 2, 5, 2, 1, 3, 7, 2, 2, 0, 3, 0],
        UNSAT,
    ),
    // The variables of derived units and clauses become known.
    (
        &[9, 0, 5, 2, 0, 2, 5, 1, 1, 5, 1, 3, 7, 1, 8, 0, 4, 4, 0],
        GOES_ON,
    ),
    (
        &[
            9, 0, 5, 2, 0, 2, 5, 1, 1, 5, 1, 3, 6, 0, 1, 8, 1, 0, 4, 4, 0,
        ],
        GOES_ON,
    ),
];

/// Clauses that are deleted.
static DELETIONS: [Row; 32] = [
    // Redundant: stored as redundant, in any order, once; stored only as irredundant; not stored.
    (
        &[9, 0, 5, 2, 0, 2, 6, 1, 3, 0, 2, 4, 1, 0, 8, 3, 0, 2, 4, 0],
        GOES_ON,
    ),
    (
        &[
            9, 0, 5, 2, 0, 2, 6, 1, 3, 0, 2, 4, 1, 0, 8, 4, 4, 0, 2, 0, 0,
        ],
        GOES_ON,
    ),
    (
        &[
            9, 0, 5, 2, 0, 2, 6, 1, 3, 0, 2, 4, 1, 0, 8, 3, 0, 2, 4, 0, 8, 3, 0, 2, 4, 0,
        ],
        REFUSED,
    ),
    (&[5, 2, 0, 2, 8, 2, 0, 2, 0], REFUSED),
    (&[8, 2, 0, 2, 0], REFUSED),
    (
        &[9, 0, 5, 2, 0, 2, 6, 1, 2, 0, 2, 1, 0, 8, 2, 0, 3, 0],
        REFUSED,
    ),
    // A unit and an empty clause cannot be deleted.
    (&[5, 1, 0, 8, 1, 0, 0], REFUSED),
    (&[5, 1, 0, 8, 1, 0, 2], REFUSED),
    (&[5, 0, 8, 0, 0], UNSAT_REFUSED),
    // Satisfied: a unit satisfies the clause; there is no unit; a unit falsifies one of its literals.
    (&[5, 2, 0, 2, 5, 1, 0, 8, 2, 0, 2, 2, 3, 1], GOES_ON),
    (&[5, 2, 0, 2, 8, 2, 0, 2, 2], REFUSED),
    (&[5, 2, 0, 2, 5, 1, 1, 8, 2, 0, 2, 2], REFUSED),
    // Satisfied: the clause isn't stored; is stored only as redundant; is deleted as many times as it is stored.
    (&[5, 1, 0, 8, 2, 0, 2, 2], REFUSED),
    (
        &[
            9, 0, 5, 2, 0, 2, 6, 1, 3, 0, 2, 4, 1, 0, 5, 1, 4, 8, 3, 0, 2, 4, 2,
        ],
        REFUSED,
    ),
    (
        &[
            5, 2, 0, 2, 5, 2, 2, 0, 5, 1, 0, 8, 2, 0, 2, 2, 8, 2, 0, 2, 2,
        ],
        GOES_ON,
    ),
    (
        &[5, 2, 0, 2, 5, 1, 0, 8, 2, 0, 2, 2, 8, 2, 0, 2, 2],
        REFUSED,
    ),
    // Without its irredundant count, the clause remains as redundant.
    (
        &[
            9, 0, 5, 2, 0, 2, 6, 1, 2, 0, 2, 1, 0, 5, 1, 0, 8, 2, 0, 2, 2, 3, 1,
        ],
        REFUSED,
    ),
    // Simplified: the last irredundant clause is a subset. The empty clause is a subset of every clause.
    (&[5, 2, 0, 2, 5, 1, 0, 8, 2, 0, 2, 1, 3, 1], GOES_ON),
    (
        &[5, 3, 0, 2, 4, 5, 2, 4, 0, 8, 3, 0, 2, 4, 1, 3, 1],
        GOES_ON,
    ),
    (
        &[5, 3, 0, 2, 4, 5, 2, 4, 0, 8, 3, 0, 2, 4, 1, 3, 0],
        REFUSED,
    ),
    (&[5, 2, 0, 2, 5, 0, 8, 2, 0, 2, 1], UNSAT),
    // The width changes in between.
    (&[5, 2, 0, 2, 5, 1, 0, 9, 8, 8, 2, 0, 2, 1], GOES_ON),
    // The last clause is the clause itself; is not a subset; does not exist.
    (&[5, 2, 0, 2, 8, 2, 0, 2, 1], REFUSED),
    (&[5, 2, 0, 2, 5, 1, 4, 8, 2, 0, 2, 1], REFUSED),
    (&[8, 2, 0, 2, 1], REFUSED),
    // The last clause was removed. A redundant clause is not the last clause; an irredundant derived clause is.
    (
        &[
            5, 1, 0, 5, 3, 0, 2, 4, 5, 2, 0, 2, 8, 2, 0, 2, 2, 8, 3, 0, 2, 4, 1,
        ],
        REFUSED,
    ),
    (
        &[
            9, 0, 5, 3, 0, 2, 4, 5, 3, 0, 2, 5, 6, 1, 2, 0, 2, 1, 0, 8, 3, 0, 2, 4, 1,
        ],
        REFUSED,
    ),
    (
        &[
            9, 0, 5, 3, 0, 2, 4, 5, 3, 0, 2, 5, 6, 0, 2, 0, 2, 1, 0, 8, 3, 0, 2, 4, 1,
        ],
        GOES_ON,
    ),
    // The clause is stored only as redundant, or no longer stored.
    (
        &[
            9, 0, 5, 2, 0, 2, 6, 1, 3, 0, 2, 4, 1, 0, 5, 1, 0, 8, 3, 0, 2, 4, 1,
        ],
        REFUSED,
    ),
    (
        &[5, 2, 0, 2, 5, 1, 0, 8, 2, 0, 2, 1, 8, 2, 0, 2, 1],
        REFUSED,
    ),
    // Clauses of three, four and five literals, which are found at three widths until they are removed.
    (
        &[
            5, 1, 0, 6, 1, 3, 0, 2, 4, 0, 6, 1, 4, 0, 2, 4, 6, 0, 6, 1, 5, 0, 2, 4, 6, 8, 0, 8, 3,
            0, 2, 4, 0, 9, 8, 8, 4, 0, 2, 4, 6, 0, 9, 0, 8, 5, 0, 2, 4, 6, 8, 0,
        ],
        GOES_ON,
    ),
    (
        &[
            5, 1, 0, 6, 1, 3, 0, 2, 4, 0, 6, 1, 4, 0, 2, 4, 6, 0, 6, 1, 5, 0, 2, 4, 6, 8, 0, 8, 3,
            0, 2, 4, 0, 9, 8, 8, 3, 0, 2, 4, 0,
        ],
        REFUSED,
    ),
];

/// Widths, models, assumptions and failed cores.
static ANSWERS: [Row; 32] = [
    (&[9, 0], GOES_ON),
    (&[9, 64], GOES_ON),
    // A width applies to earlier clauses, too, and a later width to all clauses.
    (
        &[5, 2, 0, 2, 5, 2, 0, 3, 9, 8, 6, 0, 1, 0, 2, 0x44, 0xe6, 1],
        GOES_ON,
    ),
    (
        &[
            9, 8, 5, 2, 0, 2, 5, 2, 0, 3, 9, 9, 6, 0, 1, 0, 2, 0x44, 0xe6, 1,
        ],
        REFUSED,
    ),
    // Models: one that fits, even if it leaves out a unit. Its variables become known.
    (&[5, 2, 0, 2, 10, 2, 0, 3], GOES_ON),
    (&[5, 1, 0, 10, 1, 2], GOES_ON),
    (&[10, 0], GOES_ON),
    (&[10, 1, 0, 4, 0, 1], GOES_ON),
    // A model with a variable twice, even with both signs.
    (&[10, 2, 0, 0], REFUSED),
    (&[10, 2, 0, 1], REFUSED),
    (&[10, 3, 0, 2, 0], REFUSED),
    // A model that contradicts a unit.
    (&[5, 1, 0, 10, 1, 1], REFUSED),
    (&[5, 1, 0, 5, 1, 2, 10, 2, 0, 3], REFUSED),
    // An irredundant clause without a literal of the model, even if a unit satisfies the clause. A redundant clause
    // need not have one.
    (&[5, 2, 0, 2, 10, 2, 1, 3], REFUSED),
    (&[5, 2, 0, 2, 10, 0], REFUSED),
    (&[5, 3, 0, 2, 4, 5, 1, 0, 10, 2, 3, 5], REFUSED),
    (
        &[
            9, 0, 5, 2, 0, 2, 6, 1, 3, 0, 2, 4, 1, 0, 5, 1, 0, 8, 2, 0, 2, 2, 10, 2, 3, 5,
        ],
        GOES_ON,
    ),
    // Unsat is recorded.
    (&[5, 0, 10, 0], UNSAT_REFUSED),
    (&[5, 1, 0, 5, 1, 1, 10, 1, 2], UNSAT_REFUSED),
    // Assumptions: any literals, whose variables become known.
    (&[11, 2, 0, 1], GOES_ON),
    (&[5, 1, 0, 11, 2, 1, 1], GOES_ON),
    (&[11, 1, 0, 4, 0, 1], GOES_ON),
    // Cores: not assumed, no longer assumed, assumed in part.
    (&[12, 1, 0, 0], REFUSED),
    (&[5, 1, 0, 11, 1, 1, 11, 0, 12, 1, 1, 0], REFUSED),
    (&[5, 1, 0, 11, 1, 2, 12, 2, 1, 2, 0], REFUSED),
    // A core with both signs of a variable, if both are assumed.
    (&[11, 2, 0, 1, 12, 2, 0, 1, 0], GOES_ON),
    (&[11, 1, 0, 12, 2, 0, 1, 0], REFUSED),
    // A core shown by a unit, by a clause, and a core that nothing shows to fail.
    (&[5, 1, 0, 11, 3, 1, 2, 1, 12, 1, 1, 0], GOES_ON),
    (&[9, 0, 5, 2, 0, 2, 11, 2, 1, 3, 12, 2, 3, 1, 1, 0], GOES_ON),
    (&[5, 2, 0, 2, 11, 2, 1, 3, 12, 2, 1, 3, 0], REFUSED),
    (&[12, 0, 0], REFUSED),
    // The empty core must fail by a conflict, and not only because unsat is recorded.
    (&[5, 0, 12, 0, 0], UNSAT_REFUSED),
];

fn proofs_rows() -> &'static [Row] {
    &PROOFS
}

fn names_rows() -> &'static [Row] {
    &NAMES
}

fn variables_rows() -> &'static [Row] {
    &VARIABLES
}

fn clauses_rows() -> &'static [Row] {
    &CLAUSES
}

fn deletions_rows() -> &'static [Row] {
    &DELETIONS
}

fn answers_rows() -> &'static [Row] {
    &ANSWERS
}

#[test]
fn steps_are_answered(rt: HostRuntime) {
    let tables = [
        proofs_rows(),
        names_rows(),
        variables_rows(),
        clauses_rows(),
        deletions_rows(),
        answers_rows(),
    ];
    for rows in tables {
        let wrong = first_unanswered(rt.alloc(), rows);
        assert!(rt; wrong == None, "{wrong:?}");
    }
}
