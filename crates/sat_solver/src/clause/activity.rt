//! Bumps activities: variables that an analysis has seen are picked sooner, and its antecedents are kept longer.
ghost use Rattle.std.specs.Prelude.{◌≡◌, length};
ghost use Rattle.sat_store.specs.clause.Buffer.{header_at, lits_at};
ghost use Rattle.sat_store.specs.heap.Vsids.{decayed};
ghost use Rattle.sat_parts.specs.clause.Glue.{LevelsHaveFlags, FlagsAreClear};
ghost use Rattle.sat_solver.specs.session.Session.{Session};
ghost use Rattle.sat_parts.specs.parts.Frame.{SameClauses, SameContents};
ghost use Rattle.sat_parts.specs.parts.Whole.{SearchStateInvariant, HasLongClause};
ghost use Rattle.sat_parts.specs.parts.Words.{TrailWordExtends};
ghost use Rattle.sat_solver.specs.clause.Activity.{AreBelow, DecaysAreInRange, all_bumped, BumpEffect};
ghost use Rattle.sat_solver.specs.clause.Assessed.{clause_level_count, with_updated_glue, BumpsClause, BumpsClauses};
ghost use Rattle.sat_solver.specs.clause.Assessed.{ChangesOnlyHeaders, AreAntecedents};
ghost use Rattle.sat_solver.specs.cdcl.Joint.{SearchInvariant};

use crate::SolverConfig;
use crate::clause::assess::update_glue;
use crate::context::Search;
use sat_base::Var;
use sat_parts::parts::clauses::{bump_activity, bump_variable, decay_clauses, decay_variables};
use sat_parts::{ClauseActivity, SearchState, compute_clause_glue_below};
use sat_store::{ClauseRef, TmpFlags};

/// Bumps the activities of the variables `vars`, and increases the amount that later bumps add.
fn bump_variables(parts: &mut SearchState, vars: &[Var])
    requires holds { SearchStateInvariant parts.old }
    requires there { AreBelow vars.now (length parts.old.assignment.current) }
    ensures holds { SearchStateInvariant parts.new }
    ensures same { SameContents parts.old parts.new }
    ensures word { TrailWordExtends parts.old parts.new }
    ensures queue { parts.new.vsids ≡ decayed (all_bumped vars.now parts.old.vsids) }
{
    for var in vars {
        bump_variable(parts, *var);
    }
    decay_variables(parts);
}

/// Bumps the activities of the variables that the last analysis has seen, and increases the amount that later bumps
/// add.
pub fn bump_seen_vars(search: &mut Search)
    requires holds { SearchStateInvariant search.old.parts }
    requires there { AreBelow search.old.analysis.seen (length search.old.parts.assignment.current) }
    ensures bumped { (s : Session) → SearchInvariant s search.old → BumpEffect s search.old search.new }
    ensures rest { search.new ≡ record search.old { parts = search.new.parts } }
    ensures clauses { SameClauses search.old.parts search.new.parts }
    ensures queue { search.new.parts.vsids ≡ decayed (all_bumped search.old.analysis.seen search.old.parts.vsids) }
{
    bump_variables(&mut search.parts, search.analysis.seen());
}

/// Sets the decays of variable activities and clause activities to those in `config`.
pub fn config_changed(search: &mut Search, config: &SolverConfig)
    requires holds { SearchStateInvariant search.old.parts }
    requires decays { DecaysAreInRange config.now }
    ensures bumped { (s : Session) → SearchInvariant s search.old → BumpEffect s search.old search.new }
    ensures rest { search.new ≡ record search.old { parts = search.new.parts; activity = search.new.activity } }
    ensures parts { search.new.parts
        ≡ record search.old.parts { vsids = record search.old.parts.vsids { decay = config.now.vsids_decay } } }
    ensures activity { search.new.activity ≡ record search.old.activity { decay = config.now.clause_activity_decay } }
{
    search.parts.vsids.set_decay(config.vsids_decay);
    search.activity.set_decay(config.clause_activity_decay);
}

/// Returns the number of distinct levels of a learned clause's literals, or the clause's glue if that is lower.
///
/// The result is used by `update_glue`, which only ever lowers the glue. Returns 0 for an irredundant clause, whose
/// glue is never set.
fn count_levels(parts: &SearchState, flags: &mut TmpFlags, cref: ClauseRef) -> usize
    requires holds { SearchStateInvariant parts.now }
    requires live { HasLongClause parts.now cref }
    requires levels { LevelsHaveFlags parts.now.graph flags.old.flags.items (lits_at parts.now.clauses cref) }
    requires clear { FlagsAreClear flags.old.flags.items }
    ensures improves { with_updated_glue result (header_at parts.now.clauses cref)
        ≡ with_updated_glue (clause_level_count parts.now cref) (header_at parts.now.clauses cref) }
    ensures flags { flags.new.flags.items ≡ flags.old.flags.items }
{
    let header = parts.clauses.header(cref);
    if !header.redundant() {
        return 0;
    }
    compute_clause_glue_below(flags, &parts.graph, &parts.clauses, cref, header.glue())
}

/// Bumps the activity of an antecedent.
///
/// Also marks the clause as active, and lowers its glue if its literals have fewer levels.
fn bump_clause(
    parts: &mut SearchState,
    activity: &mut ClauseActivity,
    flags: &mut TmpFlags,
    cref: ClauseRef,
)
    requires holds { SearchStateInvariant parts.old }
    requires live { HasLongClause parts.old cref }
    requires levels { LevelsHaveFlags parts.old.graph flags.old.flags.items (lits_at parts.old.clauses cref) }
    requires clear { FlagsAreClear flags.old.flags.items }
    ensures rates { ChangesOnlyHeaders parts.old parts.new }
    ensures flags { flags.new.flags.items ≡ flags.old.flags.items }
    ensures takes { BumpsClause (clause_level_count parts.old cref) parts.old.clauses parts.new.clauses parts.old.db.refs cref
        activity.old activity.new }
{
    bump_activity(parts, activity, cref);
    let levels = count_levels(parts, flags, cref);
    update_glue(parts, cref, levels);
}

/// Bumps the activities of the antecedents `crefs`, and updates their headers with `update_glue`. Afterwards, all
/// clause activities decay.
pub fn bump_clauses(
    parts: &mut SearchState,
    activity: &mut ClauseActivity,
    flags: &mut TmpFlags,
    crefs: &[ClauseRef],
)
    requires holds { SearchStateInvariant parts.old }
    requires antecedents { AreAntecedents parts.old flags.old.flags.items crefs.now }
    ensures rates { ChangesOnlyHeaders parts.old parts.new }
    ensures flags { flags.new.flags.items ≡ flags.old.flags.items }
    ensures take { BumpsClauses (clause_level_count parts.old) parts.old.db.refs crefs.now parts.old.clauses activity.old
        parts.new.clauses activity.new }
{
    for cref in crefs {
        bump_clause(parts, activity, flags, *cref);
    }
    decay_clauses(parts, activity);
}
