//! Tests of how many looks every kind of step takes, with the four clauses over two variables, and a third variable
//! that is known and unused.
use sat_base::{ClauseHash, DeleteClauseProof, HashBits, Lit, ProofStep, Var};
use sat_checker::{Checker, SelfChecker};
use std::alloc::Global;

/// The hash of [1,2].
const HASH: ClauseHash = 0x449114950295082a;

/// Returns steps, each with the number of looks that it takes.
fn kinds<'a>(
    one: &'a [Lit],
    two: &'a [Lit],
    hashes: &'a [ClauseHash],
    units: &'a [(Lit, ClauseHash)],
    bits: HashBits,
) -> [(ProofStep<'a>, u64); 15] {
    let (first, third) = (Var::from_index(0), Var::from_index(2));
    [
        (
            ProofStep::SolverVarName {
                global: first,
                solver: Some(third),
            },
            0,
        ),
        (
            ProofStep::SolverVarName {
                global: third,
                solver: Some(first),
            },
            0,
        ),
        (
            ProofStep::UserVarName {
                global: third,
                user: Some(first),
            },
            0,
        ),
        (ProofStep::DeleteVar { var: third }, 0),
        (ProofStep::DeleteVar { var: first }, 0),
        (
            ProofStep::ChangeSamplingMode {
                var: first,
                sample: false,
            },
            0,
        ),
        (ProofStep::AddClause { clause: two }, 2),
        (
            ProofStep::AtClause {
                redundant: false,
                clause: one,
                propagation_hashes: hashes,
            },
            2,
        ),
        (ProofStep::UnitClauses { units }, 2),
        (
            ProofStep::DeleteClause {
                clause: two,
                proof: DeleteClauseProof::Redundant,
            },
            2,
        ),
        (ProofStep::ChangeHashBits { bits }, 0),
        (ProofStep::Model { assignment: two }, 8),
        (ProofStep::Assumptions { assumptions: two }, 0),
        (
            ProofStep::FailedAssumptions {
                failed_core: &[],
                propagation_hashes: hashes,
            },
            2,
        ),
        (ProofStep::End, 0),
    ]
}

/// Adds the clauses, and makes the third variable known. Returns whether everything was accepted.
fn is_ready(checker: &mut Checker) -> bool {
    for (first, second) in [(0, 2), (0, 3), (1, 2), (1, 3)] {
        if checker
            .add_clause(&[Lit::from_code(first), Lit::from_code(second)])
            .is_err()
        {
            return false;
        }
    }
    let third = [Lit::from_code(4)];
    let known = ProofStep::Assumptions {
        assumptions: &third,
    };
    let none = ProofStep::Assumptions { assumptions: &[] };
    checker.self_check_step(&known).is_ok() && checker.self_check_step(&none).is_ok()
}

/// Feeds all steps in order, `times` times. Returns whether all were accepted.
fn are_accepted(checker: &mut Checker, steps: &[ProofStep<'_>], times: u64) -> bool {
    for _ in 0..times {
        for step in steps {
            if checker.accept_step(step).is_err() {
                return false;
            }
        }
    }
    true
}

/// Returns the number of looks that a step takes, accepted or not, after the steps `earlier` were fed `times` times.
fn looks_of(
    alloc: Global,
    earlier: &[ProofStep<'_>],
    times: u64,
    step: &ProofStep<'_>,
) -> Option<u64> {
    let mut checker = Checker::new(alloc);
    if !is_ready(&mut checker) || !are_accepted(&mut checker, earlier, times) {
        return None;
    }
    let before = checker.looks();
    let _answer = checker.self_check_step(step);
    checker.looks().checked_sub(before)
}

#[test]
fn looks_of_each_kind(rt: HostRuntime) {
    let two = [Lit::from_code(0), Lit::from_code(2)];
    let units = [(two[0], HASH)];
    let Some(bits) = HashBits::new(8) else {
        return;
    };
    for (step, wanted) in &kinds(&two[..1], &two, &[HASH], &units, bits) {
        assert!(rt; looks_of(rt.alloc(), &[], 0, step) == Some(*wanted));
    }
}

/// Tests that all clauses are rehashed once, when hashes are looked up after many changes.
#[test]
fn looks_after_changes(rt: HostRuntime) {
    let two = [Lit::from_code(0), Lit::from_code(2)];
    let (Some(bits), Some(whole)) = (HashBits::new(8), HashBits::new(64)) else {
        return;
    };
    let changes = [
        ProofStep::ChangeHashBits { bits },
        ProofStep::ChangeHashBits { bits: whole },
    ];
    let derived = ProofStep::AtClause {
        redundant: false,
        clause: &two[..1],
        propagation_hashes: &[HASH],
    };
    assert!(rt; looks_of(rt.alloc(), &changes, 4000, &derived) == Some(8 + 2));
    assert!(rt; looks_of(rt.alloc(), &changes, 4000, &ProofStep::End) == Some(0));
}
