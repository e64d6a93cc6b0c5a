//! Removes binary clauses that units satisfy.
ghost use Rattle.std.specs.Prelude.{◌≡◌, ◌+◌, ◌<◌, length};
ghost use Rattle.sat_base.specs.values.Literals.{variable};
ghost use Rattle.sat_parts.specs.prop.Binaries.{implied_by};
ghost use Rattle.sat_solver.specs.session.SolverClauses.{pair, is_open_clause};
ghost use Rattle.sat_solver.specs.proof.ProofView.{HasAllowedSteps, session_of};
ghost use Rattle.sat_solver.specs.cdcl.StepEffects.{EmitsSteps};
ghost use Rattle.sat_solver.specs.cdcl.Joint.{SearchInvariant};
ghost use Rattle.sat_solver.specs.unit_simplify.EmptyTrail.{HasEmptyTrail, CanRemovePairs, LeavesPairs, RemovesPairs};

use crate::cdcl::fault::Fault;
use crate::context::Search;
use crate::load::delete_satisfied;
use crate::proof::Proof;
use sat_base::{CountedWrite, Lit};
use sat_checker::ProofProcessor;
use sat_parts::SearchState;
use sat_parts::parts::clauses::remove_binary;

/// Returns `true` if neither `first` nor `second` has a value.
fn are_unassigned(parts: &SearchState, first: Lit, second: Lit) -> bool
    requires first { variable first < length parts.now.assignment.current }
    requires second { variable second < length parts.now.assignment.current }
    ensures { result ≡ is_open_clause parts.now.assignment.current (pair first second) }
{
    let values = &parts.assignment;
    values.var_value(first.var()).is_none() && values.var_value(second.var()).is_none()
}

/// Writes the deletion of a binary clause if one of its variables has a value.
///
/// The clause consists of `!lit` and the literal at position `at` in the list of `lit`. Every binary clause is in two
/// lists, so the clause is skipped unless `!lit` is its lower literal.
fn delete_pair<W: CountedWrite + Drop, P: ProofProcessor>(
    proof: &mut Proof<W, P>,
    search: &mut Search,
    lit: Lit,
    at: usize,
) -> Result<(), Fault>
    requires keeps { HasAllowedSteps proof.old }
    requires may { CanRemovePairs search.old }
    requires left { LeavesPairs (session_of proof.old) search.old lit at }
    requires there { lit < length search.old.parts.binary.implied }
    requires within { at < length (implied_by search.old.parts.binary.implied lit) }
    ensures same { search.new ≡ record search.old { scratch = search.new.scratch } }
    ensures left { EmitsSteps W.seen result proof.old proof.new
        (λ _ _. LeavesPairs (session_of proof.new) search.old lit (at + 1)) }
{
    let first = !lit;
    let second = search.parts.binary.implied(lit)[at];
    if first.code() >= second.code() {
        return Ok(());
    }
    if are_unassigned(&search.parts, first, second) {
        return Ok(());
    }
    let pair = [first, second];
    delete_satisfied(proof, &search.globals, &pair, &mut search.scratch.clause)
}

/// Calls `delete_pair` for every position in the list of `lit`.
fn delete_pairs_of<W: CountedWrite + Drop, P: ProofProcessor>(
    proof: &mut Proof<W, P>,
    search: &mut Search,
    lit: Lit,
) -> Result<(), Fault>
    requires keeps { HasAllowedSteps proof.old }
    requires may { CanRemovePairs search.old }
    requires left { LeavesPairs (session_of proof.old) search.old lit 0 }
    requires there { lit < length search.old.parts.binary.implied }
    ensures same { search.new ≡ record search.old { scratch = search.new.scratch } }
    ensures left { EmitsSteps W.seen result proof.old proof.new
        (λ _ _. LeavesPairs (session_of proof.new) search.old (lit + 1) 0) }
{
    for at in 0..search.parts.binary.implied(lit).len() {
        delete_pair(proof, search, lit, at)?;
    }
    Ok(())
}

/// Removes the binary clauses that have an assigned variable. Writes the deletion of each clause once, in the order of
/// the lists of implied literals.
pub fn simplify_binary<W: CountedWrite + Drop, P: ProofProcessor>(
    proof: &mut Proof<W, P>,
    search: &mut Search,
) -> Result<(), Fault>
    requires keeps { HasAllowedSteps proof.old }
    requires search { SearchInvariant (session_of proof.old) search.old }
    requires flat { HasEmptyTrail search.old.parts }
    ensures { RemovesPairs W.seen result proof.old proof.new search.old search.new }
{
    let count = 2 * search.parts.assignment.assignment().len();
    for code in 0..count {
        delete_pairs_of(proof, search, Lit::from_code(code))?;
    }
    remove_binary(&mut search.parts);
    Ok(())
}
