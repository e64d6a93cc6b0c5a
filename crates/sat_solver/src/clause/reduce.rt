//! Deletes the learned clauses that are used least, and compacts the clause buffer.
ghost use Rattle.std.specs.Prelude.{◌≡◌, ◌-◌, ◌<◌, if◌then◌else◌, OnOk, Err, length, map};
ghost use Rattle.sat_store.specs.clause.Buffer.{IsClause, lits_at};
ghost use Rattle.sat_solver.specs.session.LiveClauses.{with_var};
ghost use Rattle.sat_solver.specs.proof.ProofView.{HasAllowedSteps, session_of};
ghost use Rattle.sat_solver.specs.session.Session.{Session};
ghost use Rattle.sat_parts.specs.parts.Whole.{SearchStateInvariant};
ghost use Rattle.sat_solver.specs.session.Naming.{global_of_index};
ghost use Rattle.sat_solver.specs.cdcl.StepEffects.{EmitsSteps};
ghost use Rattle.sat_solver.specs.cdcl.Joint.{SearchInvariant};
ghost use Rattle.sat_solver.specs.clause.Reduced.{IsLearnedLong, TriesToDelete, ReductionEffect, ReducesLocals};
ghost use Rattle.sat_solver.specs.clause.Reduced.{ReducesMids};
ghost use Rattle.sat_solver.specs.clause.Reduced.{CollectsWhereDue, Reduces, ReductionBySteps};
ghost use Rattle.sat_parts.specs.clause.Glue.{VariablesBelow};
ghost use Rattle.sat_store.specs.clause.Full.{IfStoreFull};

use crate::SolverConfig;
use crate::cdcl::fault::Fault;
use crate::context::Search;
use crate::proof::Proof;
use sat_base::{CountedWrite, DeleteClauseProof, Lit, ProofStep, Var};
use sat_checker::ProofProcessor;
use sat_parts::SearchState;
use sat_parts::parts::clauses::{self, collect, drop_clause};
use sat_parts::parts::reduce::list_locals;
use sat_store::{ClauseRef, StoreError};
use std::alloc::AllocError;

/// Replaces the content of `clause` with the literals of the long clause at `cref`, over proof variables.
pub fn map_clause(
    parts: &SearchState,
    globals: &[Var],
    cref: ClauseRef,
    clause: &mut Vec<Lit>,
) -> Result<(), AllocError>
    requires clause { IsClause parts.now.clauses cref }
    requires names { VariablesBelow (lits_at parts.now.clauses cref) (length globals.now) }
    ensures { OnOk result (clause.new.items ≡ map (with_var (global_of_index globals.now)) (lits_at parts.now.clauses cref)) }
{
    let lits = parts.clauses.clause(cref).lits();
    clause.clear();
    for at in 0..lits.len() {
        let lit = lits.get(at);
        let var = globals[lit.index()];
        clause.push(Lit::from_var(var, lit.is_positive()))?;
    }
    Ok(())
}

/// Deletes a learned clause and writes the step for the deletion, unless the clause is a reason. Returns `true` if the
/// clause was deleted.
fn delete_learned<W: CountedWrite + Drop, P: ProofProcessor>(
    proof: &mut Proof<W, P>,
    search: &mut Search,
    cref: ClauseRef,
) -> Result<bool, Fault>
    requires keeps { HasAllowedSteps proof.old }
    requires search { SearchInvariant (session_of proof.old) search.old }
    requires learned { IsLearnedLong search.old.parts cref }
    ensures { EmitsSteps W.seen result proof.old proof.new
        (λ deleted _. TriesToDelete deleted cref (session_of proof.new) search.old search.new) }
{
    map_clause(
        &search.parts,
        &search.globals,
        cref,
        &mut search.scratch.clause,
    )?;
    if !drop_clause(&mut search.parts, cref) {
        return Ok(false);
    }
    let step = ProofStep::DeleteClause {
        clause: &search.scratch.clause,
        proof: DeleteClauseProof::Redundant,
    };
    proof.add_step(&step)?;
    Ok(true)
}

/// Returns how many clauses are still to be deleted: `left`, or one fewer if `deleted` is true.
fn left_after(left: usize, deleted: bool) -> usize
    requires { 0 < left }
    ensures { result ≡ (if deleted then left - 1 else left) }
{
    if deleted { left - 1 } else { left }
}

/// If `is_due` is true, deletes up to half of the clauses of tier Local, those with the lowest activities first.
/// Clauses that are reasons are skipped.
fn reduce_locals<W: CountedWrite + Drop, P: ProofProcessor>(
    proof: &mut Proof<W, P>,
    search: &mut Search,
    is_due: bool,
) -> Result<(), Fault>
    requires keeps { HasAllowedSteps proof.old }
    requires search { SearchInvariant (session_of proof.old) search.old }
    ensures { ReductionBySteps (ReducesLocals is_due) W.seen result proof.old proof.new search.old search.new }
{
    if !is_due {
        return Ok(());
    }
    let mut list = Vec::new(search.alloc);
    list_locals(search.alloc, &search.parts, &mut list)?;
    let mut left = list.len() / 2;
    for at in 0..list.len() {
        if left == 0 {
            return Ok(());
        }
        let deleted = delete_learned(proof, search, list[at])?;
        left = left_after(left, deleted);
    }
    Ok(())
}

/// If `is_due` is true, moves to tier Local the clauses of tier Mid that have not been used since the last
/// such reduction.
fn reduce_mids(search: &mut Search, is_due: bool)
    requires holds { SearchStateInvariant search.old.parts }
    ensures holds { SearchStateInvariant search.new.parts }
    ensures reduced { (s : Session) → SearchInvariant s search.old → ReductionEffect s search.old search.new }
    ensures mids { ReducesMids is_due search.old.parts search.new.parts }
{
    if !is_due {
        return;
    }
    clauses::reduce_mids(&mut search.parts);
}

/// Compacts the clause buffer if deleted clauses take up more than half of it.
fn collect_deleted(search: &mut Search) -> Result<(), StoreError>
    requires holds { SearchStateInvariant search.old.parts }
    ensures reduced { OnOk result ((s : Session) → SearchInvariant s search.old → ReductionEffect s search.old search.new) }
    ensures collects { OnOk result (CollectsWhereDue search.old.parts search.new.parts) }
    ensures room { IfStoreFull result ⊥ }
{
    collect(search.alloc, &mut search.parts)
}

/// Runs the reductions that are due before round `round`: first that of tier Local, then that of tier Mid. Then
/// compacts the clause buffer if deleted clauses take up more than half of it.
pub fn reduce<W: CountedWrite + Drop, P: ProofProcessor>(
    proof: &mut Proof<W, P>,
    search: &mut Search,
    config: &SolverConfig,
    round: u64,
) -> Result<(), Fault>
    requires keeps { HasAllowedSteps proof.old }
    requires search { SearchInvariant (session_of proof.old) search.old }
    requires locals { 0 < config.now.reduce_locals_interval }
    requires mids { 0 < config.now.reduce_mids_interval }
    ensures { ReductionBySteps (Reduces config.now round) W.seen result proof.old proof.new search.old search.new }
{
    let are_locals_due = round % config.reduce_locals_interval == 0;
    reduce_locals(proof, search, are_locals_due)?;
    reduce_mids(search, round % config.reduce_mids_interval == 0);
    collect_deleted(search)?;
    Ok(())
}
