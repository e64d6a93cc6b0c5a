//! Tests of what is announced for accepted steps, and of the transcripts.

use crate::calls::{Answer, Call, error_of};
use crate::hearing::{
    GONE, Heard, HeardCalls, IRREDUNDANT, KEPT, KNOWN, Listener, NEW, NO, Notice, REDUNDANT,
    SAMPLE, Said, WITNESS, add_listener, add_reader, are_done, first_unheard,
};
use crate::kinds::{Kind, failure};
use sat_base::{Counted, Var};
use sat_checker::{CheckedProofStep, CheckerData, ProofProcessor};
use std::alloc::Global;

/// Steps in bytes, their announcements, and their transcript.
type Row = (&'static [u8], &'static [Notice], &'static [Said]);

/// Returns `true` if a processor and a transcript that were added are notified of exactly what `row` has, if the steps
/// are fed one by one.
fn is_reported_to_added(alloc: Global, row: &Row) -> bool {
    let mut checker = Heard::notifying(alloc);
    let taken = add_listener(&mut checker, row.1)
        && add_reader(&mut checker, row.2)
        && error_of(alloc, &mut checker, Call::Steps(row.0)).is_none();
    let notified = are_done(checker.into_processors(), 1);
    taken && notified
}

/// Checks a proof with a processor of the caller's own, and returns the error.
pub(crate) fn check_with<O: ProofProcessor>(
    alloc: Global,
    checker: &mut Heard,
    text: &[u8],
    own: &mut O,
) -> Option<Kind> {
    failure(
        alloc,
        &checker.check_proof_with(&mut Counted::new(text), own),
    )
}

/// Returns `true` if a processor of the caller's own is notified of exactly what `row` has, if the steps are read as a
/// proof, with or without its end.
fn is_reported_to_own(alloc: Global, row: &Row) -> bool {
    let mut checker = Heard::notifying(alloc);
    let mut own = Listener::new(row.1);
    let error = check_with(alloc, &mut checker, row.0, &mut own);
    let read = error.is_none() && checker.ended() || error == Some(Kind::ProofIncomplete);
    drop(checker);
    read && own.is_done()
}

fn is_announced(alloc: Global, row: &Row) -> bool {
    is_reported_to_added(alloc, row) && is_reported_to_own(alloc, row)
}

/// Returns the steps of the first row whose announcements differ, or `None`.
fn first_unannounced(alloc: Global, rows: &[Row]) -> Option<&'static [u8]> {
    for row in rows {
        if !is_announced(alloc, row) {
            return Some(row.0);
        }
    }
    None
}

/// The announcements for the four clauses over two variables, and for two clauses that follow from them.
pub(crate) const REFUTED: &[Notice] = &[
    Notice::AddClause(0, [1, 2, 0]),
    Notice::AddClause(1, [1, -2, 0]),
    Notice::AddClause(2, [-1, 2, 0]),
    Notice::AddClause(3, [-1, -2, 0]),
    Notice::AtClause(4, IRREDUNDANT, [1, 0, 0], [0, 1, NO, NO]),
    Notice::AtClause(5, IRREDUNDANT, [0, 0, 0], [4, 2, 3, NO]),
];

pub(crate) const REFUTED_SAID: &[Said] = &[
    Said::AddClause([1, 2, 0]),
    Said::AddClause([1, -2, 0]),
    Said::AddClause([-1, 2, 0]),
    Said::AddClause([-1, -2, 0]),
    Said::Unsat,
];

/// The four clauses, and [1] and [] derived with the complete hashes of two clauses each.
pub(crate) const REFUTATION: &[u8] = &[
    5, 2, 0, 2, 5, 2, 0, 3, 5, 2, 1, 2, 5, 2, 1, 3, //
    6, 0, 1, 0, 2, 0xaa, 0x90, 0xd4, 0x94, 0xd0, 0x92, 0xc5, 0xc8, 0x44, 0xc1, 0x98, 0x8e, 0x93,
    0xc8, 0xeb, 0xa7, 0xf5, 0xe6, 0x01, //
    6, 0, 0, 2, 0x95, 0x98, 0xae, 0x9a, 0xe8, 0xcb, 0xa7, 0xe4, 0xe6, 0x01, 0xfe, 0x90, 0xf4, 0x9d,
    0xf0, 0xb2, 0xc5, 0xd9, 0x44,
];

/// Derived clauses, with the buckets that their hashes name.
static PROPAGATIONS: [Row; 4] = [
    (REFUTATION, REFUTED, REFUTED_SAID),
    // At width 8.
    (
        &[
            5, 2, 0, 2, 5, 2, 0, 3, 5, 2, 1, 2, 5, 2, 1, 3, 9, 8, 6, 0, 1, 0, 2, 0x44, 0xe6, 1, 6,
            0, 0, 2, 0xe6, 1, 0x44,
        ],
        REFUTED,
        REFUTED_SAID,
    ),
    // At width 0, one bucket has all clauses.
    (
        &[
            5, 2, 0, 2, 5, 2, 0, 3, 5, 2, 1, 2, 5, 2, 1, 3, 9, 0, 6, 0, 1, 0, 1, 0, 6, 0, 0, 1, 0,
        ],
        REFUTED,
        REFUTED_SAID,
    ),
    // Ids are in the order in which clauses are passed: the first clause is falsified when the bucket is passed again.
    (
        &[
            5, 3, 3, 4, 6, 5, 2, 0, 2, 5, 2, 3, 7, 9, 0, 6, 0, 2, 0, 4, 2, 0, 0,
        ],
        &[
            Notice::AddClause(0, [-2, 3, 4]),
            Notice::AddClause(1, [1, 2, 0]),
            Notice::AddClause(2, [-2, -4, 0]),
            Notice::AtClause(3, IRREDUNDANT, [1, 3, 0], [1, 2, 0, NO]),
        ],
        &[
            Said::AddClause([-2, 3, 4]),
            Said::AddClause([1, 2, 0]),
            Said::AddClause([-2, -4, 0]),
        ],
    ),
];

/// Names and modes.
static NAMES: [Row; 13] = [
    // A name for an unknown variable, which remains unknown when its solver name is removed.
    (&[2, 0, 5], &[Notice::UserVar(1, 5, SAMPLE, NEW)], &[]),
    (
        &[1, 0, 0, 2, 0, 5],
        &[Notice::UserVar(1, 5, SAMPLE, NEW)],
        &[],
    ),
    // A name for a known variable: one in a clause, a witness, and one with a solver name.
    (
        &[5, 1, 0, 2, 0, 5],
        &[
            Notice::AddClause(0, [1, 0, 0]),
            Notice::UserVar(1, 5, SAMPLE, KNOWN),
        ],
        &[Said::AddClause([1, 0, 0]), Said::ObserveInternalVar(5)],
    ),
    (
        &[5, 1, 0, 4, 0, 0, 2, 0, 5],
        &[
            Notice::AddClause(0, [1, 0, 0]),
            Notice::UserVar(1, 5, WITNESS, KNOWN),
        ],
        &[Said::AddClause([1, 0, 0]), Said::ObserveInternalVar(5)],
    ),
    (
        &[1, 0, 1, 2, 0, 5],
        &[Notice::UserVar(1, 5, SAMPLE, KNOWN)],
        &[Said::ObserveInternalVar(5)],
    ),
    // A name is removed, from a sampling variable and from a witness.
    (
        &[2, 0, 5, 2, 0, 0],
        &[Notice::UserVar(1, 5, SAMPLE, NEW), Notice::NoName(1)],
        &[Said::HideVar(5)],
    ),
    (
        &[2, 0, 5, 4, 0, 0, 2, 0, 0],
        &[
            Notice::UserVar(1, 5, SAMPLE, NEW),
            Notice::UserVar(1, 5, WITNESS, KNOWN),
            Notice::NoName(1),
        ],
        &[Said::WitnessVar(5), Said::HideVar(5)],
    ),
    // Modes that change.
    (
        &[2, 0, 5, 4, 0, 0, 4, 0, 1],
        &[
            Notice::UserVar(1, 5, SAMPLE, NEW),
            Notice::UserVar(1, 5, WITNESS, KNOWN),
            Notice::UserVar(1, 5, SAMPLE, KNOWN),
        ],
        &[Said::WitnessVar(5), Said::SampleVar(5)],
    ),
    // Modes that don't change.
    (
        &[2, 0, 5, 4, 0, 1, 4, 0, 0, 4, 0, 0],
        &[
            Notice::UserVar(1, 5, SAMPLE, NEW),
            Notice::UserVar(1, 5, WITNESS, KNOWN),
        ],
        &[Said::WitnessVar(5)],
    ),
    // Modes of a variable without a name: one that never had a name, and a hidden one.
    (
        &[5, 1, 0, 4, 0, 0, 4, 0, 1],
        &[Notice::AddClause(0, [1, 0, 0])],
        &[Said::AddClause([1, 0, 0])],
    ),
    (
        &[2, 0, 5, 2, 0, 0, 4, 0, 1, 4, 0, 0],
        &[Notice::UserVar(1, 5, SAMPLE, NEW), Notice::NoName(1)],
        &[Said::HideVar(5)],
    ),
    // Another name for a variable that is no longer hidden, and a name for a deleted variable.
    (
        &[2, 0, 5, 2, 0, 0, 4, 0, 1, 2, 0, 6],
        &[
            Notice::UserVar(1, 5, SAMPLE, NEW),
            Notice::NoName(1),
            Notice::UserVar(1, 6, SAMPLE, KNOWN),
        ],
        &[Said::HideVar(5), Said::ObserveInternalVar(6)],
    ),
    (
        &[2, 0, 5, 2, 0, 0, 3, 0, 2, 0, 5],
        &[
            Notice::UserVar(1, 5, SAMPLE, NEW),
            Notice::NoName(1),
            Notice::DeleteVar(1),
            Notice::UserVar(1, 5, SAMPLE, NEW),
        ],
        &[Said::HideVar(5)],
    ),
];

/// Clauses of the formula.
static INPUTS: [Row; 11] = [
    // A new clause, as a sorted set.
    (
        &[5, 3, 2, 0, 2],
        &[Notice::AddClause(0, [1, 2, 0])],
        &[Said::AddClause([1, 2, 0])],
    ),
    // Clauses that are already stored: a long clause, and a unit.
    (
        &[5, 2, 0, 2, 5, 3, 2, 0, 0],
        &[
            Notice::AddClause(0, [1, 2, 0]),
            Notice::DuplicatedClause(1, 0, [1, 2, 0]),
        ],
        &[Said::AddClause([1, 2, 0]), Said::AddClause([1, 2, 0])],
    ),
    (
        &[5, 1, 0, 5, 2, 0, 0],
        &[
            Notice::AddClause(0, [1, 0, 0]),
            Notice::DuplicatedClause(1, 0, [1, 0, 0]),
        ],
        &[Said::AddClause([1, 0, 0]), Said::AddClause([1, 0, 0])],
    ),
    // A clause that is already stored as redundant, and is irredundant from then on.
    (
        &[
            9, 0, 5, 2, 0, 2, 6, 1, 3, 0, 2, 4, 1, 0, 5, 3, 0, 2, 4, 6, 0, 3, 0, 2, 4, 1, 0,
        ],
        &[
            Notice::AddClause(0, [1, 2, 0]),
            Notice::AtClause(1, REDUNDANT, [1, 2, 3], [0, NO, NO, NO]),
            Notice::DuplicatedClause(2, 1, [1, 2, 3]),
        ],
        &[Said::AddClause([1, 2, 0]), Said::AddClause([1, 2, 3])],
    ),
    // A clause that is already stored as a derived unit.
    (
        &[9, 0, 5, 2, 0, 2, 5, 2, 0, 3, 6, 0, 1, 0, 1, 0, 5, 1, 0],
        &[
            Notice::AddClause(0, [1, 2, 0]),
            Notice::AddClause(1, [1, -2, 0]),
            Notice::AtClause(2, IRREDUNDANT, [1, 0, 0], [0, 1, NO, NO]),
            Notice::DuplicatedClause(3, 2, [1, 0, 0]),
        ],
        &[
            Said::AddClause([1, 2, 0]),
            Said::AddClause([1, -2, 0]),
            Said::AddClause([1, 0, 0]),
        ],
    ),
    // A clause that was removed is new again.
    (
        &[5, 2, 0, 2, 5, 1, 0, 8, 2, 0, 2, 2, 5, 2, 0, 2],
        &[
            Notice::AddClause(0, [1, 2, 0]),
            Notice::AddClause(1, [1, 0, 0]),
            Notice::DeleteAtClause(0, GONE, [1, 2, 0], [1, NO, NO, NO]),
            Notice::AddClause(2, [1, 2, 0]),
        ],
        &[
            Said::AddClause([1, 2, 0]),
            Said::AddClause([1, 0, 0]),
            Said::AddClause([1, 2, 0]),
        ],
    ),
    // A clause with both signs of a variable gets an id, but is not stored.
    (
        &[5, 3, 2, 1, 0, 5, 3, 0, 1, 2, 5, 1, 2],
        &[
            Notice::TautologicalClause(0, [1, -1, 2]),
            Notice::TautologicalClause(1, [1, -1, 2]),
            Notice::AddClause(2, [2, 0, 0]),
        ],
        &[
            Said::AddClause([1, -1, 2]),
            Said::AddClause([1, -1, 2]),
            Said::AddClause([2, 0, 0]),
        ],
    ),
    // An empty clause, after which no clause has an effect.
    (
        &[5, 0, 5, 0, 5, 1, 0, 5, 2, 0, 1],
        &[Notice::AddClause(0, [0, 0, 0])],
        &[Said::AddClause([0, 0, 0])],
    ),
    // Clauses in the user's names: a variable that has a name, and a variable whose number is its name.
    (
        &[2, 0, 5, 5, 2, 0, 3],
        &[
            Notice::UserVar(1, 5, SAMPLE, NEW),
            Notice::AddClause(0, [1, -2, 0]),
        ],
        &[Said::AddClause([5, -2, 0])],
    ),
    (
        &[2, 0, 5, 5, 1, 1, 5, 1, 1, 5, 2, 1, 0],
        &[
            Notice::UserVar(1, 5, SAMPLE, NEW),
            Notice::AddClause(0, [-1, 0, 0]),
            Notice::DuplicatedClause(1, 0, [-1, 0, 0]),
            Notice::TautologicalClause(2, [1, -1, 0]),
        ],
        &[
            Said::AddClause([-5, 0, 0]),
            Said::AddClause([-5, 0, 0]),
            Said::AddClause([5, -5, 0]),
        ],
    ),
    // Steps for which nothing is announced.
    (&[9, 8, 1, 0, 1, 1, 0, 0, 9, 64, 13], &[], &[]),
];

/// Clauses that follow from other clauses.
static DERIVED: [Row; 11] = [
    // A redundant clause, as a sorted set.
    (
        &[9, 0, 5, 2, 0, 2, 6, 1, 4, 4, 2, 0, 0, 1, 0],
        &[
            Notice::AddClause(0, [1, 2, 0]),
            Notice::AtClause(1, REDUNDANT, [1, 2, 3], [0, NO, NO, NO]),
        ],
        &[Said::AddClause([1, 2, 0])],
    ),
    // A redundant clause that is already stored, as redundant or as irredundant: no announcement and no id.
    (
        &[
            9, 0, 5, 2, 0, 2, 6, 1, 3, 0, 2, 4, 1, 0, 6, 1, 3, 0, 2, 4, 1, 0, 6, 1, 2, 0, 2, 1, 0,
            6, 0, 2, 0, 2, 1, 0, 5, 1, 6,
        ],
        &[
            Notice::AddClause(0, [1, 2, 0]),
            Notice::AtClause(1, REDUNDANT, [1, 2, 3], [0, NO, NO, NO]),
            Notice::AddClause(2, [4, 0, 0]),
        ],
        &[Said::AddClause([1, 2, 0]), Said::AddClause([4, 0, 0])],
    ),
    // A clause that becomes irredundant, and is derived as irredundant once more.
    (
        &[
            9, 0, 5, 2, 0, 2, 6, 1, 3, 0, 2, 4, 1, 0, 6, 0, 3, 0, 2, 4, 1, 0, 6, 0, 3, 0, 2, 4, 1,
            0,
        ],
        &[
            Notice::AddClause(0, [1, 2, 0]),
            Notice::AtClause(1, REDUNDANT, [1, 2, 3], [0, NO, NO, NO]),
            Notice::MakeIrredundant(1, [1, 2, 3]),
        ],
        &[Said::AddClause([1, 2, 0])],
    ),
    // A clause with both signs of a variable; a unit that is already stored; a clause that a unit satisfies.
    (&[6, 0, 2, 0, 1, 0], &[], &[]),
    (
        &[5, 1, 0, 6, 0, 1, 0, 0, 7, 1, 0, 0],
        &[Notice::AddClause(0, [1, 0, 0])],
        &[Said::AddClause([1, 0, 0])],
    ),
    (
        &[5, 1, 0, 6, 0, 2, 0, 2, 0],
        &[
            Notice::AddClause(0, [1, 0, 0]),
            Notice::AtClause(1, IRREDUNDANT, [1, 2, 0], [0, NO, NO, NO]),
        ],
        &[Said::AddClause([1, 0, 0])],
    ),
    // Units. The second is derived from the first.
    (
        &[9, 0, 5, 1, 0, 5, 2, 1, 2, 5, 2, 3, 5, 7, 2, 2, 0, 5, 0],
        &[
            Notice::AddClause(0, [1, 0, 0]),
            Notice::AddClause(1, [-1, 2, 0]),
            Notice::AddClause(2, [-2, -3, 0]),
            Notice::AtClause(3, IRREDUNDANT, [2, 0, 0], [0, 1, NO, NO]),
            Notice::AtClause(4, IRREDUNDANT, [-3, 0, 0], [3, 2, NO, NO]),
        ],
        &[
            Said::AddClause([1, 0, 0]),
            Said::AddClause([-1, 2, 0]),
            Said::AddClause([-2, -3, 0]),
        ],
    ),
    // A clause of the bucket that isn't needed.
    (
        &[9, 0, 5, 2, 0, 4, 5, 2, 0, 2, 5, 2, 0, 3, 6, 0, 1, 0, 1, 0],
        &[
            Notice::AddClause(0, [1, 3, 0]),
            Notice::AddClause(1, [1, 2, 0]),
            Notice::AddClause(2, [1, -2, 0]),
            Notice::AtClause(3, IRREDUNDANT, [1, 0, 0], [1, 2, NO, NO]),
        ],
        &[
            Said::AddClause([1, 3, 0]),
            Said::AddClause([1, 2, 0]),
            Said::AddClause([1, -2, 0]),
        ],
    ),
    // Units come first, ordered by their ids, even if the falsified clause needs the later unit.
    (
        &[
            9, 0, 5, 1, 0, 5, 1, 2, 5, 2, 1, 4, 5, 2, 3, 5, 6, 0, 1, 6, 1, 0,
        ],
        &[
            Notice::AddClause(0, [1, 0, 0]),
            Notice::AddClause(1, [2, 0, 0]),
            Notice::AddClause(2, [-1, 3, 0]),
            Notice::AddClause(3, [-2, -3, 0]),
            Notice::AtClause(4, IRREDUNDANT, [4, 0, 0], [0, 1, 2, 3]),
        ],
        &[
            Said::AddClause([1, 0, 0]),
            Said::AddClause([2, 0, 0]),
            Said::AddClause([-1, 3, 0]),
            Said::AddClause([-2, -3, 0]),
        ],
    ),
    // A unit that is part of the negated clause isn't needed. The derived unit contradicts it.
    (
        &[
            9, 0, 5, 1, 1, 5, 2, 0, 2, 5, 2, 0, 3, 6, 0, 1, 0, 1, 0, 11, 0,
        ],
        &[
            Notice::AddClause(0, [-1, 0, 0]),
            Notice::AddClause(1, [1, 2, 0]),
            Notice::AddClause(2, [1, -2, 0]),
            Notice::AtClause(3, IRREDUNDANT, [1, 0, 0], [1, 2, NO, NO]),
            Notice::AtClause(4, IRREDUNDANT, [0, 0, 0], [0, 3, NO, NO]),
            Notice::Assumptions([0, 0, 0]),
        ],
        &[
            Said::AddClause([-1, 0, 0]),
            Said::AddClause([1, 2, 0]),
            Said::AddClause([1, -2, 0]),
            Said::Unsat,
            Said::Assume([0, 0, 0]),
        ],
    ),
    // Every empty clause is new.
    (
        &[
            9, 0, 5, 2, 0, 2, 5, 1, 1, 5, 1, 3, 6, 0, 0, 1, 0, 6, 1, 0, 1, 0,
        ],
        &[
            Notice::AddClause(0, [1, 2, 0]),
            Notice::AddClause(1, [-1, 0, 0]),
            Notice::AddClause(2, [-2, 0, 0]),
            Notice::AtClause(3, IRREDUNDANT, [0, 0, 0], [1, 2, 0, NO]),
            Notice::AtClause(4, REDUNDANT, [0, 0, 0], [1, 2, 0, NO]),
        ],
        &[
            Said::AddClause([1, 2, 0]),
            Said::AddClause([-1, 0, 0]),
            Said::AddClause([-2, 0, 0]),
            Said::Unsat,
            Said::Unsat,
        ],
    ),
];

/// Clauses that are deleted.
static DELETED: [Row; 12] = [
    // Redundant: removed; stored once more; also stored as irredundant.
    (
        &[9, 0, 5, 2, 0, 2, 6, 1, 3, 0, 2, 4, 1, 0, 8, 3, 4, 2, 0, 0],
        &[
            Notice::AddClause(0, [1, 2, 0]),
            Notice::AtClause(1, REDUNDANT, [1, 2, 3], [0, NO, NO, NO]),
            Notice::DeleteClause(1, [1, 2, 3]),
        ],
        &[Said::AddClause([1, 2, 0])],
    ),
    (
        &[
            9, 0, 5, 2, 0, 2, 6, 1, 3, 0, 2, 4, 1, 0, 6, 1, 3, 0, 2, 4, 1, 0, 8, 3, 0, 2, 4, 0, 11,
            0, 8, 3, 0, 2, 4, 0,
        ],
        &[
            Notice::AddClause(0, [1, 2, 0]),
            Notice::AtClause(1, REDUNDANT, [1, 2, 3], [0, NO, NO, NO]),
            Notice::Assumptions([0, 0, 0]),
            Notice::DeleteClause(1, [1, 2, 3]),
        ],
        &[Said::AddClause([1, 2, 0]), Said::Assume([0, 0, 0])],
    ),
    (
        &[9, 0, 5, 2, 0, 2, 6, 1, 2, 0, 2, 1, 0, 8, 2, 0, 2, 0],
        &[Notice::AddClause(0, [1, 2, 0])],
        &[Said::AddClause([1, 2, 0])],
    ),
    // Satisfied: removed; stored once more; remains as redundant, and is removed later.
    (
        &[5, 2, 0, 2, 5, 1, 0, 8, 2, 2, 0, 2],
        &[
            Notice::AddClause(0, [1, 2, 0]),
            Notice::AddClause(1, [1, 0, 0]),
            Notice::DeleteAtClause(0, GONE, [1, 2, 0], [1, NO, NO, NO]),
        ],
        &[Said::AddClause([1, 2, 0]), Said::AddClause([1, 0, 0])],
    ),
    (
        &[
            5, 2, 0, 2, 5, 2, 0, 2, 5, 1, 0, 8, 2, 0, 2, 2, 11, 0, 8, 2, 0, 2, 2,
        ],
        &[
            Notice::AddClause(0, [1, 2, 0]),
            Notice::DuplicatedClause(1, 0, [1, 2, 0]),
            Notice::AddClause(2, [1, 0, 0]),
            Notice::Assumptions([0, 0, 0]),
            Notice::DeleteAtClause(0, GONE, [1, 2, 0], [2, NO, NO, NO]),
        ],
        &[
            Said::AddClause([1, 2, 0]),
            Said::AddClause([1, 2, 0]),
            Said::AddClause([1, 0, 0]),
            Said::Assume([0, 0, 0]),
        ],
    ),
    (
        &[
            9, 0, 5, 2, 0, 2, 6, 1, 2, 0, 2, 1, 0, 5, 1, 0, 8, 2, 0, 2, 2, 8, 2, 0, 2, 0,
        ],
        &[
            Notice::AddClause(0, [1, 2, 0]),
            Notice::AddClause(1, [1, 0, 0]),
            Notice::DeleteAtClause(0, KEPT, [1, 2, 0], [1, NO, NO, NO]),
            Notice::DeleteClause(0, [1, 2, 0]),
        ],
        &[Said::AddClause([1, 2, 0]), Said::AddClause([1, 0, 0])],
    ),
    // Simplified: removed; stored once more; remains as redundant.
    (
        &[5, 3, 0, 2, 4, 5, 2, 4, 0, 8, 3, 0, 2, 4, 1],
        &[
            Notice::AddClause(0, [1, 2, 3]),
            Notice::AddClause(1, [1, 3, 0]),
            Notice::DeleteAtClause(0, GONE, [1, 2, 3], [1, NO, NO, NO]),
        ],
        &[Said::AddClause([1, 2, 3]), Said::AddClause([1, 3, 0])],
    ),
    (
        &[
            5, 3, 0, 2, 4, 5, 3, 0, 2, 4, 5, 2, 0, 4, 8, 3, 0, 2, 4, 1, 11, 0, 8, 3, 0, 2, 4, 1,
        ],
        &[
            Notice::AddClause(0, [1, 2, 3]),
            Notice::DuplicatedClause(1, 0, [1, 2, 3]),
            Notice::AddClause(2, [1, 3, 0]),
            Notice::Assumptions([0, 0, 0]),
            Notice::DeleteAtClause(0, GONE, [1, 2, 3], [2, NO, NO, NO]),
        ],
        &[
            Said::AddClause([1, 2, 3]),
            Said::AddClause([1, 2, 3]),
            Said::AddClause([1, 3, 0]),
            Said::Assume([0, 0, 0]),
        ],
    ),
    (
        &[
            9, 0, 5, 2, 0, 2, 6, 1, 3, 0, 2, 4, 1, 0, 5, 3, 0, 2, 4, 5, 2, 0, 4, 8, 3, 0, 2, 4, 1,
        ],
        &[
            Notice::AddClause(0, [1, 2, 0]),
            Notice::AtClause(1, REDUNDANT, [1, 2, 3], [0, NO, NO, NO]),
            Notice::DuplicatedClause(2, 1, [1, 2, 3]),
            Notice::AddClause(3, [1, 3, 0]),
            Notice::DeleteAtClause(1, KEPT, [1, 2, 3], [3, NO, NO, NO]),
        ],
        &[
            Said::AddClause([1, 2, 0]),
            Said::AddClause([1, 2, 3]),
            Said::AddClause([1, 3, 0]),
        ],
    ),
    // Simplified by a unit, by the empty clause, and by a clause that was stored earlier.
    (
        &[5, 2, 0, 2, 5, 1, 0, 8, 2, 0, 2, 1],
        &[
            Notice::AddClause(0, [1, 2, 0]),
            Notice::AddClause(1, [1, 0, 0]),
            Notice::DeleteAtClause(0, GONE, [1, 2, 0], [1, NO, NO, NO]),
        ],
        &[Said::AddClause([1, 2, 0]), Said::AddClause([1, 0, 0])],
    ),
    (
        &[5, 2, 0, 2, 5, 0, 8, 2, 0, 2, 1],
        &[
            Notice::AddClause(0, [1, 2, 0]),
            Notice::AddClause(1, [0, 0, 0]),
            Notice::DeleteAtClause(0, GONE, [1, 2, 0], [1, NO, NO, NO]),
        ],
        &[Said::AddClause([1, 2, 0]), Said::AddClause([0, 0, 0])],
    ),
    (
        &[5, 2, 0, 4, 5, 3, 0, 2, 4, 5, 2, 0, 4, 8, 3, 0, 2, 4, 1],
        &[
            Notice::AddClause(0, [1, 3, 0]),
            Notice::AddClause(1, [1, 2, 3]),
            Notice::DuplicatedClause(2, 0, [1, 3, 0]),
            Notice::DeleteAtClause(1, GONE, [1, 2, 3], [0, NO, NO, NO]),
        ],
        &[
            Said::AddClause([1, 3, 0]),
            Said::AddClause([1, 2, 3]),
            Said::AddClause([1, 3, 0]),
        ],
    ),
];

/// Models, assumptions and failed cores.
static ANSWERS: [Row; 13] = [
    // Literals in the order of the steps.
    (
        &[5, 2, 0, 2, 10, 2, 2, 1],
        &[Notice::AddClause(0, [1, 2, 0]), Notice::Model([2, -1, 0])],
        &[Said::AddClause([1, 2, 0]), Said::Model([2, -1, 0])],
    ),
    (
        &[11, 2, 2, 1, 11, 0],
        &[
            Notice::Assumptions([2, -1, 0]),
            Notice::Assumptions([0, 0, 0]),
        ],
        &[Said::Assume([2, -1, 0]), Said::Assume([0, 0, 0])],
    ),
    // Cores: by a unit, by a clause, by both, without literals, and with both signs of a variable.
    (
        &[5, 1, 0, 11, 2, 1, 2, 12, 1, 1, 0],
        &[
            Notice::AddClause(0, [1, 0, 0]),
            Notice::Assumptions([-1, 2, 0]),
            Notice::FailedAssumptions([-1, 0, 0], [0, NO, NO, NO]),
        ],
        &[
            Said::AddClause([1, 0, 0]),
            Said::Assume([-1, 2, 0]),
            Said::FailedAssumptions([-1, 0, 0]),
        ],
    ),
    (
        &[9, 0, 5, 2, 0, 2, 11, 2, 1, 3, 12, 2, 1, 3, 1, 0],
        &[
            Notice::AddClause(0, [1, 2, 0]),
            Notice::Assumptions([-1, -2, 0]),
            Notice::FailedAssumptions([-1, -2, 0], [0, NO, NO, NO]),
        ],
        &[
            Said::AddClause([1, 2, 0]),
            Said::Assume([-1, -2, 0]),
            Said::FailedAssumptions([-1, -2, 0]),
        ],
    ),
    (
        &[9, 0, 5, 1, 1, 5, 2, 0, 2, 11, 1, 3, 12, 1, 3, 1, 0],
        &[
            Notice::AddClause(0, [-1, 0, 0]),
            Notice::AddClause(1, [1, 2, 0]),
            Notice::Assumptions([-2, 0, 0]),
            Notice::FailedAssumptions([-2, 0, 0], [0, 1, NO, NO]),
        ],
        &[
            Said::AddClause([-1, 0, 0]),
            Said::AddClause([1, 2, 0]),
            Said::Assume([-2, 0, 0]),
            Said::FailedAssumptions([-2, 0, 0]),
        ],
    ),
    (
        &[9, 0, 5, 1, 1, 5, 1, 3, 5, 2, 0, 2, 12, 0, 1, 0],
        &[
            Notice::AddClause(0, [-1, 0, 0]),
            Notice::AddClause(1, [-2, 0, 0]),
            Notice::AddClause(2, [1, 2, 0]),
            Notice::FailedAssumptions([0, 0, 0], [0, 1, 2, NO]),
        ],
        &[
            Said::AddClause([-1, 0, 0]),
            Said::AddClause([-2, 0, 0]),
            Said::AddClause([1, 2, 0]),
            Said::FailedAssumptions([0, 0, 0]),
        ],
    ),
    (
        &[11, 2, 0, 1, 12, 2, 0, 1, 0],
        &[
            Notice::Assumptions([1, -1, 0]),
            Notice::FailedAssumptions([1, -1, 0], [NO, NO, NO, NO]),
        ],
        &[
            Said::Assume([1, -1, 0]),
            Said::FailedAssumptions([1, -1, 0]),
        ],
    ),
    // Literals in the user's names.
    (
        &[2, 0, 5, 5, 1, 0, 11, 1, 1, 12, 1, 1, 0],
        &[
            Notice::UserVar(1, 5, SAMPLE, NEW),
            Notice::AddClause(0, [1, 0, 0]),
            Notice::Assumptions([-1, 0, 0]),
            Notice::FailedAssumptions([-1, 0, 0], [0, NO, NO, NO]),
        ],
        &[
            Said::AddClause([5, 0, 0]),
            Said::Assume([-5, 0, 0]),
            Said::FailedAssumptions([-5, 0, 0]),
        ],
    ),
    (
        &[2, 0, 5, 10, 2, 1, 2],
        &[
            Notice::UserVar(1, 5, SAMPLE, NEW),
            Notice::Model([-1, 2, 0]),
        ],
        &[Said::Model([-5, 2, 0])],
    ),
    (
        &[2, 0, 5, 4, 0, 0, 11, 1, 1],
        &[
            Notice::UserVar(1, 5, SAMPLE, NEW),
            Notice::UserVar(1, 5, WITNESS, KNOWN),
            Notice::Assumptions([-1, 0, 0]),
        ],
        &[Said::WitnessVar(5), Said::Assume([-5, 0, 0])],
    ),
    // Literals of variables without a name are left out: those of a hidden variable, whose number is its name once it
    // is sampled again, and of a witness.
    (
        &[
            2, 0, 5, 2, 0, 0, 11, 3, 0, 1, 3, 12, 2, 0, 1, 0, 10, 2, 1, 2,
        ],
        &[
            Notice::UserVar(1, 5, SAMPLE, NEW),
            Notice::NoName(1),
            Notice::Assumptions([1, -1, -2]),
            Notice::FailedAssumptions([1, -1, 0], [NO, NO, NO, NO]),
            Notice::Model([-1, 2, 0]),
        ],
        &[
            Said::HideVar(5),
            Said::Assume([-2, 0, 0]),
            Said::FailedAssumptions([0, 0, 0]),
            Said::Model([2, 0, 0]),
        ],
    ),
    (
        &[2, 0, 5, 2, 0, 0, 4, 0, 1, 11, 1, 1],
        &[
            Notice::UserVar(1, 5, SAMPLE, NEW),
            Notice::NoName(1),
            Notice::Assumptions([-1, 0, 0]),
        ],
        &[Said::HideVar(5), Said::Assume([-1, 0, 0])],
    ),
    (
        &[5, 1, 0, 4, 0, 0, 11, 2, 1, 2, 10, 1, 0],
        &[
            Notice::AddClause(0, [1, 0, 0]),
            Notice::Assumptions([-1, 2, 0]),
            Notice::Model([1, 0, 0]),
        ],
        &[
            Said::AddClause([1, 0, 0]),
            Said::Assume([2, 0, 0]),
            Said::Model([0, 0, 0]),
        ],
    ),
];

/// A name, and units that contradict each other.
pub(crate) const UNITS: &[u8] = &[2, 0, 1, 5, 1, 0, 5, 1, 1];

/// The announcements of `UNITS` until the delayed steps are settled.
pub(crate) const CONFLICT_BEFORE: &[Notice] = &[
    Notice::UserVar(1, 1, SAMPLE, NEW),
    Notice::AddClause(0, [1, 0, 0]),
    Notice::AddClause(1, [-1, 0, 0]),
];

pub(crate) const CONFLICT_SAID_BEFORE: &[Said] = &[
    Said::AddClause([1, 0, 0]),
    Said::AddClause([-1, 0, 0]),
];

pub(crate) const CONFLICT: &[Notice] = &[
    Notice::UserVar(1, 1, SAMPLE, NEW),
    Notice::AddClause(0, [1, 0, 0]),
    Notice::AddClause(1, [-1, 0, 0]),
    Notice::AtClause(2, IRREDUNDANT, [0, 0, 0], [0, 1, NO, NO]),
];

const CONFLICT_SAID: &[Said] = &[
    Said::AddClause([1, 0, 0]),
    Said::AddClause([-1, 0, 0]),
    Said::Unsat,
];

/// The empty clause of a unit conflict, which is announced by the next step.
static CONFLICTS: [Row; 5] = [
    (&[2, 0, 1, 5, 1, 0, 5, 1, 1, 13], CONFLICT, CONFLICT_SAID),
    (
        &[2, 0, 1, 5, 1, 0, 5, 1, 1, 5, 1, 2, 5, 2, 0, 2],
        CONFLICT,
        CONFLICT_SAID,
    ),
    (
        &[2, 0, 1, 5, 1, 0, 5, 1, 1, 11, 1, 1],
        &[
            Notice::UserVar(1, 1, SAMPLE, NEW),
            Notice::AddClause(0, [1, 0, 0]),
            Notice::AddClause(1, [-1, 0, 0]),
            Notice::AtClause(2, IRREDUNDANT, [0, 0, 0], [0, 1, NO, NO]),
            Notice::Assumptions([-1, 0, 0]),
        ],
        &[
            Said::AddClause([1, 0, 0]),
            Said::AddClause([-1, 0, 0]),
            Said::Unsat,
            Said::Assume([-1, 0, 0]),
        ],
    ),
    // The variable has another name.
    (
        &[2, 0, 5, 5, 1, 0, 5, 1, 1, 13],
        &[
            Notice::UserVar(1, 5, SAMPLE, NEW),
            Notice::AddClause(0, [1, 0, 0]),
            Notice::AddClause(1, [-1, 0, 0]),
            Notice::AtClause(2, IRREDUNDANT, [0, 0, 0], [0, 1, NO, NO]),
        ],
        &[
            Said::AddClause([5, 0, 0]),
            Said::AddClause([-5, 0, 0]),
            Said::Unsat,
        ],
    ),
    // The conflicting units are derived by a single step.
    (
        &[9, 0, 5, 1, 0, 5, 2, 1, 2, 5, 2, 1, 3, 7, 2, 2, 0, 3, 0, 13],
        &[
            Notice::AddClause(0, [1, 0, 0]),
            Notice::AddClause(1, [-1, 2, 0]),
            Notice::AddClause(2, [-1, -2, 0]),
            Notice::AtClause(3, IRREDUNDANT, [2, 0, 0], [0, 1, NO, NO]),
            Notice::AtClause(4, IRREDUNDANT, [-2, 0, 0], [0, 2, NO, NO]),
            Notice::AtClause(5, IRREDUNDANT, [0, 0, 0], [3, 4, NO, NO]),
        ],
        &[
            Said::AddClause([1, 0, 0]),
            Said::AddClause([-1, 2, 0]),
            Said::AddClause([-1, -2, 0]),
            Said::Unsat,
        ],
    ),
];

fn propagations_rows() -> &'static [Row] {
    &PROPAGATIONS
}

fn names_rows() -> &'static [Row] {
    &NAMES
}

fn inputs_rows() -> &'static [Row] {
    &INPUTS
}

fn derived_rows() -> &'static [Row] {
    &DERIVED
}

fn deleted_rows() -> &'static [Row] {
    &DELETED
}

fn answers_rows() -> &'static [Row] {
    &ANSWERS
}

fn conflicts_rows() -> &'static [Row] {
    &CONFLICTS
}

#[test]
fn steps_are_announced(rt: HostRuntime) {
    let tables = [
        propagations_rows(),
        names_rows(),
        inputs_rows(),
        derived_rows(),
        deleted_rows(),
        answers_rows(),
        conflicts_rows(),
    ];
    for rows in tables {
        let wrong = first_unannounced(rt.alloc(), rows);
        assert!(rt; wrong == None, "{wrong:?}");
    }
}

const UNSAT: Answer = (None, true, false);

const TAKEN: Answer = (None, false, false);

static HEARD: [HeardCalls; 3] = [
    (
        "the empty clause of contradictory units is announced once it is settled",
        CONFLICT,
        CONFLICT_SAID,
        &[(Call::Steps(UNITS), UNSAT), (Call::Settle, UNSAT)],
    ),
    (
        "the empty clause of contradictory units isn't announced before",
        CONFLICT_BEFORE,
        CONFLICT_SAID_BEFORE,
        &[(Call::Steps(UNITS), UNSAT)],
    ),
    (
        "a clause that comes twice is announced as a duplicate, and nothing is announced of a refused step",
        &[
            Notice::AddClause(0, [1, 2, 0]),
            Notice::DuplicatedClause(1, 0, [1, 2, 0]),
        ],
        &[Said::AddClause([1, 2, 0]), Said::AddClause([1, 2, 0])],
        &[
            (Call::Clause(&[1, 2]), TAKEN),
            (Call::Clause(&[2, 1, 1]), TAKEN),
            (
                Call::Proof(&[6, 0, 1, 4, 0]),
                (Some(Kind::CheckFailed), false, false),
            ),
        ],
    ),
];

fn heard() -> &'static [HeardCalls] {
    &HEARD
}

#[test]
fn calls_are_announced(rt: HostRuntime) {
    let wrong = first_unheard(rt.alloc(), heard());
    assert!(rt; wrong == None, "{wrong:?}");
}

/// A processor that looks up the name of the first variable at each announcement, and expects the names `awaited`,
/// where 0 is no name.
#[derive(Drop)]
struct Names {
    awaited: &'static [i64],
    wrong: bool,
}

impl Names {
    /// Compares a name with the next one that is expected.
    fn take(&mut self, name: i64) {
        match self.awaited.split_first() {
            Some((first, rest)) => {
                self.wrong = self.wrong || name != *first;
                self.awaited = rest;
            }
            None => self.wrong = true,
        }
    }
}

impl ProofProcessor for Names {
    ghost use Rattle.std.specs.Prelude.{⊤};

    ghost takes = { λ _ _ _ _. ⊤ };

    fn process_step(
        &mut self,
        _step: &CheckedProofStep<'_>,
        names: CheckerData<'_>,
    ) -> anyhow::Result<()> {
        match names.user_from_proof_var(Var::from_index(0)) {
            Some(name) => self.take(name.to_dimacs()),
            None => self.take(0),
        }
        Ok(())
    }
}

/// Steps in which a variable becomes known, gets a name, becomes a witness, is hidden, is sampled again and becomes a
/// witness without a name. Assumptions are announced after every step.
const LOOKED_UP: &[u8] = &[
    1, 0, 1, 11, 0, 2, 0, 5, 11, 0, 4, 0, 0, 11, 0, 2, 0, 0, 11, 0, 4, 0, 1, 11, 0, 4, 0, 0, 11, 0,
    13,
];

/// The name of that variable at each announcement for `LOOKED_UP`. A sampling variable without a name has its
/// own number.
const FOUND: &[i64] = &[1, 1, 5, 5, 5, 5, 0, 1, 0];

fn are_looked_up(alloc: Global, own: &mut Names) -> bool {
    let mut checker = Heard::notifying(alloc);
    let error = check_with(alloc, &mut checker, LOOKED_UP, own);
    drop(checker);
    error.is_none()
}

#[test]
fn names_are_looked_up(rt: HostRuntime) {
    let mut own = Names {
        awaited: FOUND,
        wrong: false,
    };
    let taken = are_looked_up(rt.alloc(), &mut own);
    assert!(rt; taken && own.awaited.is_empty() && !own.wrong);
}
