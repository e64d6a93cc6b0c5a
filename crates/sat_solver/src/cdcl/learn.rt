//! Learns a clause from a conflict: writes its step and stores it.
ghost use Rattle.std.specs.Prelude.{◌≡◌, ◌<◌, ◌≤◌, length, map, Err, false, OnOk, IfOk};
ghost use Rattle.sat_parts.specs.clause.Glue.{levels_of, count_distinct};
ghost use Rattle.sat_solver.specs.session.LiveClauses.{with_var};
ghost use Rattle.sat_solver.specs.proof.ProofView.{HasAllowedSteps, session_of};
ghost use Rattle.sat_solver.specs.analyze_conflict.Derivation.{AnalysisResult, AnalysisResultOf};
ghost use Rattle.sat_parts.specs.parts.Round.{UnitsHaveNoReason, LevelZeroInvariant};
ghost use Rattle.sat_parts.specs.parts.Full.{IsBufferFull};
ghost use Rattle.sat_parts.specs.parts.Learned.{IsAnalyzedClause};
ghost use Rattle.sat_parts.specs.parts.Whole.{state, SearchStateInvariantBelow, HasConflict};
ghost use Rattle.sat_solver.specs.session.Matching.{FlagMatches};
ghost use Rattle.sat_solver.specs.clause.Activity.{AreBelow};
ghost use Rattle.sat_solver.specs.clause.Assessed.{learned_header, AreAntecedents};
ghost use Rattle.sat_solver.specs.cdcl.Joint.{global_in, HasClearFlags};
ghost use Rattle.sat_solver.specs.cdcl.Learning.{UndoesAndLearns, BumpsAntecedents, SearchBumpsAntecedents};
ghost use Rattle.sat_solver.specs.cdcl.Learning.{BumpsSeenVars, LearnsClause};
ghost use Rattle.sat_solver.specs.cdcl.Learning.{learned_hashes};
ghost use Rattle.sat_solver.specs.cdcl.Iterations.{IsFalsifiedAt};
ghost use Rattle.sat_store.specs.clause.Full.{IfStoreFull};

use crate::analyze_conflict::learn_from_conflict;
use crate::cdcl::fault::Fault;
use crate::clause::activity::{bump_clauses, bump_seen_vars};
use crate::clause::assess::assess_learned_clause;
use crate::context::Search;
use crate::proof::Proof;
use crate::proof::map_step::{map_lits, name_clauses};
use sat_base::{CountedWrite, Lit, ProofStep};
use sat_checker::ProofProcessor;
use sat_parts::Conflict;
use sat_parts::parts::steps::{learn, undo};
use sat_store::{ClauseHeader, StoreError};
use std::alloc::AllocError;

/// Fills `search.scratch` for the step that derives a learned clause: the clause's literals over proof variables, and
/// the hashes of the clauses from which it follows.
fn prepare_learned(
    search: &mut Search,
    _level: usize,
    conflict: &Conflict,
) -> Result<(), AllocError>
    requires refuted { HasConflict search.old.parts conflict.now }
    requires names { length search.old.parts.assignment.current ≤ length search.old.globals.items }
    requires learns { AnalysisResultOf search.old.parts.clauses (state search.old.parts) conflict.now search.old.analysis
        _level }
    ensures same { search.new ≡ record search.old { scratch = search.new.scratch } }
    ensures clause { OnOk result (search.new.scratch.clause.items
        ≡ map (with_var (global_in search.old)) search.old.analysis.clause) }
    ensures hashes { OnOk result (search.new.scratch.hashes.items
        ≡ learned_hashes search.old.parts search.old.analysis conflict.now) }
{
    map_lits(
        &search.globals,
        search.analysis.clause(),
        &mut search.scratch.clause,
    )?;
    name_clauses(
        &search.parts,
        search.analysis.used(),
        conflict,
        &mut search.scratch.hashes,
    )
}

/// Backtracks to `level`, bumps the activities of the antecedents, and stores the learned clause with the header
/// `header`.
///
/// Also updates the headers of the antecedents, based on the levels of their literals before backtracking.
fn store_learned(search: &mut Search, header: ClauseHeader, level: usize) -> Result<(), StoreError>
    requires holds { SearchStateInvariantBelow (length search.old.parts.trail.starts) search.old.parts }
    requires units { UnitsHaveNoReason (state search.old.parts) }
    requires base { LevelZeroInvariant search.old.parts.trail }
    requires live { header.deleted ≡ false }
    requires learned { IsAnalyzedClause (state search.old.parts) search.old.analysis.clause level }
    requires antecedents { AreAntecedents search.old.parts search.old.flags.flags.items search.old.analysis.antecedents }
    ensures same { search.new ≡ record search.old
        { parts = search.new.parts; activity = search.new.activity; flags = search.new.flags } }
    ensures flags { search.new.flags.flags.items ≡ search.old.flags.flags.items }
    ensures taken { OnOk result (UndoesAndLearns search.old.parts search.new.parts header search.old.analysis.clause
        level) }
    ensures rated { OnOk result (BumpsAntecedents search.old.parts search.old.activity search.old.analysis header search.new.parts
        search.new.activity) }
    ensures full { IfStoreFull result (IsBufferFull search.new.parts) }
{
    undo(&mut search.parts, level);
    bump_clauses(
        &mut search.parts,
        &mut search.activity,
        &mut search.flags,
        search.analysis.antecedents(),
    );
    learn(&mut search.parts, header, search.analysis.clause())
}

/// Returns `true` if the step that derives the clause `lits` marks it as redundant: if `header` does, and there are
/// at least three literals.
fn is_marked_redundant(header: &ClauseHeader, lits: &[Lit]) -> bool
    ensures { FlagMatches result header.now lits.now }
{
    if lits.len() < 3 {
        return false;
    }
    header.redundant()
}

/// Analyzes a conflict above level 0, and fills `search.scratch` for the step that derives the learned clause. Returns
/// the level to backtrack to, and the header of the learned clause.
fn analyze(search: &mut Search, conflict: &Conflict) -> Result<(usize, ClauseHeader), AllocError>
    requires refuted { HasConflict search.old.parts conflict.now }
    requires above { 0 < length search.old.parts.trail.starts }
    requires free { HasClearFlags search.old }
    ensures same { search.new ≡ record search.old
        { analysis = search.new.analysis; flags = search.new.flags; scratch = search.new.scratch } }
    ensures free { OnOk result (HasClearFlags search.new) }
    ensures learns { IfOk result (λ r. AnalysisResultOf search.old.parts.clauses (state search.old.parts) conflict.now
        search.new.analysis r.0) }
    ensures header { IfOk result (λ r. r.1
        ≡ learned_header (count_distinct (levels_of search.old.parts.graph search.new.analysis.clause))) }
    ensures antecedents { OnOk result
        (AreAntecedents search.old.parts search.new.flags.flags.items search.new.analysis.antecedents) }
    ensures seen { OnOk result (AreBelow search.new.analysis.seen (length search.old.parts.assignment.current)) }
    ensures clause { OnOk result (search.new.scratch.clause.items
        ≡ map (with_var (global_in search.old)) search.new.analysis.clause) }
    ensures hashes { OnOk result (search.new.scratch.hashes.items
        ≡ learned_hashes search.old.parts search.new.analysis conflict.now) }
{
    let parts = &search.parts;
    let level = learn_from_conflict(
        &mut search.analysis,
        &parts.clauses,
        &parts.db,
        &parts.watchlists,
        &parts.binary,
        &parts.assignment,
        &parts.graph,
        &parts.trail,
        conflict,
    )?;
    let header = assess_learned_clause(
        &mut search.flags,
        &search.parts.graph,
        search.analysis.clause(),
    );
    prepare_learned(search, level, conflict)?;
    Ok((level, header))
}

/// Learns a clause from a conflict above level 0, writes the clause's step, backtracks, and stores the clause.
fn learn_clause<W: CountedWrite + Drop, P: ProofProcessor>(
    proof: &mut Proof<W, P>,
    search: &mut Search,
    conflict: &Conflict,
) -> Result<(), Fault>
    requires keeps { HasAllowedSteps proof.old }
    requires stopped { IsFalsifiedAt (session_of proof.old) search.old conflict.now }
    requires above { 0 < length search.old.parts.trail.starts }
    ensures learned { LearnsClause W.seen result proof.old proof.new search.old search.new }
    ensures seen { OnOk result (AreBelow search.new.analysis.seen (length search.new.parts.assignment.current)) }
    ensures rated { OnOk result (SearchBumpsAntecedents search.old search.new) }
{
    let (level, header) = analyze(search, conflict)?;
    let step = ProofStep::AtClause {
        redundant: is_marked_redundant(&header, search.analysis.clause()),
        clause: &search.scratch.clause,
        propagation_hashes: &search.scratch.hashes,
    };
    proof.add_step(&step)?;
    store_learned(search, header, level)?;
    search.assumptions.cut(level);
    Ok(())
}

/// Learns a clause from a conflict above level 0, writes the clause's step, backtracks, and stores the clause.
///
/// Bumps the activities of the antecedents and of the variables that the analysis has seen.
pub fn learn_from<W: CountedWrite + Drop, P: ProofProcessor>(
    proof: &mut Proof<W, P>,
    search: &mut Search,
    conflict: &Conflict,
) -> Result<(), Fault>
    requires keeps { HasAllowedSteps proof.old }
    requires stopped { IsFalsifiedAt (session_of proof.old) search.old conflict.now }
    requires above { 0 < length search.old.parts.trail.starts }
    ensures learned { LearnsClause W.seen result proof.old proof.new search.old search.new }
    ensures raised { OnOk result (BumpsSeenVars search.old search.new) }
{
    learn_clause(proof, search, conflict)?;
    bump_seen_vars(search);
    Ok(())
}
