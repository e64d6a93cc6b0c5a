//! A caller with a contract of its own.
ghost use Rattle.std.specs.Prelude.{ℕ, ◌≡◌, ◌++◌, ◌∷◌, [], true, List, IfOk};
ghost use Rattle.sat_base.specs.steps.Steps.{Step, End};
ghost use Rattle.sat_base.specs.values.Clauses.{Valuation};
ghost use Rattle.sat_checker.specs.Fold.{Holds};
ghost use Rattle.sat_checker.specs.CheckerView.{kernel_of};
ghost use Rattle.sat_checker.specs.KernelView.{KernelHasAccepted, KernelHasNoPendingConflict};
ghost use Rattle.sat_checker.specs.ProofView.{GaveSteps, steps_after};
ghost use Rattle.sat_checker.specs.ClausesView.{steps_after_additions};

use sat_base::{CnfFormula, Counted, CountedRead, DimacsParser};
use sat_checker::{Checker, CheckerError};
use std::alloc::Global;

/// Returns `true` if a proof shows that no valuation satisfies the clauses of a formula and those that the proof itself
/// adds.
fn is_refuted<R: CountedRead>(
    alloc: Global,
    formula: &CnfFormula,
    proof: &mut R,
) -> Result<bool, CheckerError>
    ensures { IfOk result (λ refuted. (passed : List Step) × (rest : List ℕ)
        × GaveSteps (R.seen proof.old) (R.seen proof.new) (passed ++ End ∷ []) rest
        × (refuted ≡ true → (a : Valuation) → Holds (steps_after passed (steps_after_additions formula.now.clauses [])) a
        → ⊥)) }
{
    let mut checker = Checker::new(alloc);
    let answer = is_refuted_by(&mut checker, formula, proof);
    drop(checker);
    answer
}

/// Does what `is_refuted` does, with a checker that has accepted nothing yet.
fn is_refuted_by<R: CountedRead>(
    checker: &mut Checker,
    formula: &CnfFormula,
    proof: &mut R,
) -> Result<bool, CheckerError>
    requires valid { KernelHasAccepted (kernel_of checker.old) [] }
    requires settled { KernelHasNoPendingConflict (kernel_of checker.old) }
    ensures { IfOk result (λ refuted. (passed : List Step) × (rest : List ℕ)
        × GaveSteps (R.seen proof.old) (R.seen proof.new) (passed ++ End ∷ []) rest
        × (refuted ≡ true → (a : Valuation) → Holds (steps_after passed (steps_after_additions formula.now.clauses [])) a
        → ⊥)) }
{
    checker.add_formula(formula)?;
    checker.check_proof(proof)?;
    Ok(checker.unsat())
}

/// Returns whether a proof refutes a formula in DIMACS CNF, or `None` if one of them has a fault or memory runs out.
fn refutes(alloc: Global, text: &[u8], proof: &[u8]) -> Option<bool> {
    match DimacsParser::parse(alloc, &mut Counted::new(text)) {
        Ok(formula) => is_refuted(alloc, &formula, &mut Counted::new(proof)).ok(),
        Err(_) => None,
    }
}

/// All four clauses of two variables.
const FORMULA: &[u8] = b"1 2 0 -1 2 0 1 -2 0 -1 -2 0";

/// `ChangeHashBits` to 0, so that the hash 0 names all clauses; an `AtClause` with the literal 2; one without literals;
/// and `End`.
const PROOF: &[u8] = &[9, 0, 6, 0, 1, 2, 1, 0, 6, 0, 0, 1, 0, 13];

#[test]
fn proofs_refute(rt: HostRuntime) {
    assert!(rt; refutes(rt.alloc(), FORMULA, PROOF) == Some(true));
    assert!(rt; refutes(rt.alloc(), FORMULA, &[13]) == Some(false));
    assert!(rt; refutes(rt.alloc(), FORMULA, &[9]) == None);
}
