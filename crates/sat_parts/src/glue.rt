//! Computes the glue of clauses, which is the number of distinct levels among the literals of a clause.
ghost use Rattle.std.specs.Prelude.{ℕ, ◌≡◌, ◌<◌, ◌≤◌, min, length, take, slice_index_or, false};
ghost use Rattle.sat_store.specs.clause.Buffer.{IsClause, lits_at};
ghost use Rattle.sat_parts.specs.clause.Glue.{levels_of, count_distinct, LitsHaveNodes, LevelsHaveFlags, FlagsAreClear};
ghost use Rattle.sat_parts.specs.clause.Glue.{FlagsMarkLevels};

use crate::prop::graph::ImplGraph;
use sat_base::Lit;
use sat_store::{ClauseAlloc, ClauseRef, TmpFlags};

/// Returns the number of distinct levels among the literals. All flags must be false, and are false again afterwards.
pub fn compute_glue(flags: &mut TmpFlags, graph: &ImplGraph, lits: &[Lit]) -> usize
    requires nodes { LitsHaveNodes graph.now lits.now }
    requires levels { LevelsHaveFlags graph.now flags.old.flags.items lits.now }
    requires clear { FlagsAreClear flags.old.flags.items }
    ensures glue { result ≡ count_distinct (levels_of graph.now lits.now) }
    ensures clear { flags.new.flags.items ≡ flags.old.flags.items }
{
    let glue = mark_levels(flags, graph, lits);
    clear_levels(flags, graph, lits);
    glue
}

/// Sets the flag of every level among the literals, and returns the number of levels.
fn mark_levels(flags: &mut TmpFlags, graph: &ImplGraph, lits: &[Lit]) -> usize
    requires nodes { LitsHaveNodes graph.now lits.now }
    requires levels { LevelsHaveFlags graph.now flags.old.flags.items lits.now }
    requires clear { FlagsAreClear flags.old.flags.items }
    ensures glue { result ≡ count_distinct (levels_of graph.now lits.now) }
    ensures size { length flags.new.flags.items ≡ length flags.old.flags.items }
    ensures marked { FlagsMarkLevels flags.new.flags.items (levels_of graph.now lits.now) }
{
    let mut glue = 0;
    for lit in lits {
        let level = graph.level(lit.var());
        if !flags.flags[level] {
            flags.flags[level] = true;
            glue += 1;
        }
    }
    glue
}

/// Clears the flag of every level among the literals.
fn clear_levels(flags: &mut TmpFlags, graph: &ImplGraph, lits: &[Lit])
    requires nodes { LitsHaveNodes graph.now lits.now }
    requires levels { LevelsHaveFlags graph.now flags.old.flags.items lits.now }
    requires marked { FlagsMarkLevels flags.old.flags.items (levels_of graph.now lits.now) }
    ensures size { length flags.new.flags.items ≡ length flags.old.flags.items }
    ensures clear { (k : ℕ) → k < length flags.new.flags.items → slice_index_or flags.new.flags.items k false ≡ false }
{
    for lit in lits {
        let level = graph.level(lit.var());
        flags.flags[level] = false;
    }
}

/// Returns the number of distinct levels among the literals of a long clause. All flags must be false, and are false
/// again afterwards.
pub fn compute_clause_glue(
    flags: &mut TmpFlags,
    graph: &ImplGraph,
    clauses: &ClauseAlloc,
    cref: ClauseRef,
) -> usize
    requires clause { IsClause clauses.now cref }
    requires nodes { LitsHaveNodes graph.now (lits_at clauses.now cref) }
    requires levels { LevelsHaveFlags graph.now flags.old.flags.items (lits_at clauses.now cref) }
    requires clear { FlagsAreClear flags.old.flags.items }
    ensures glue { result ≡ count_distinct (levels_of graph.now (lits_at clauses.now cref)) }
    ensures clear { flags.new.flags.items ≡ flags.old.flags.items }
{
    compute_clause_glue_below(flags, graph, clauses, cref, clauses.len(cref))
}

/// Returns the number of distinct levels among the literals of a long clause, or `limit` if there are more.
///
/// Stops reading the clause once the limit is reached. All flags must be false, and are false again afterwards.
pub fn compute_clause_glue_below(
    flags: &mut TmpFlags,
    graph: &ImplGraph,
    clauses: &ClauseAlloc,
    cref: ClauseRef,
    limit: usize,
) -> usize
    requires clause { IsClause clauses.now cref }
    requires nodes { LitsHaveNodes graph.now (lits_at clauses.now cref) }
    requires levels { LevelsHaveFlags graph.now flags.old.flags.items (lits_at clauses.now cref) }
    requires clear { FlagsAreClear flags.old.flags.items }
    ensures glue { result ≡ min limit (count_distinct (levels_of graph.now (lits_at clauses.now cref))) }
    ensures clear { flags.new.flags.items ≡ flags.old.flags.items }
{
    let (glue, seen) = mark_clause_levels(flags, graph, clauses, cref, limit);
    clear_clause_levels(flags, graph, clauses, cref, seen);
    glue
}

/// Sets the flags of at most `limit` levels among the literals of a clause. Returns the number of these levels, and the
/// number of literals that were read.
fn mark_clause_levels(
    flags: &mut TmpFlags,
    graph: &ImplGraph,
    clauses: &ClauseAlloc,
    cref: ClauseRef,
    limit: usize,
) -> (usize, usize)
    requires clause { IsClause clauses.now cref }
    requires nodes { LitsHaveNodes graph.now (lits_at clauses.now cref) }
    requires levels { LevelsHaveFlags graph.now flags.old.flags.items (lits_at clauses.now cref) }
    requires clear { FlagsAreClear flags.old.flags.items }
    ensures glue { result.0 ≡ min limit (count_distinct (levels_of graph.now (lits_at clauses.now cref))) }
    ensures within { result.1 ≤ length (lits_at clauses.now cref) }
    ensures size { length flags.new.flags.items ≡ length flags.old.flags.items }
    ensures marked { FlagsMarkLevels flags.new.flags.items
        (take result.1 (levels_of graph.now (lits_at clauses.now cref))) }
{
    let end = clauses.len(cref);
    let mut glue = 0;
    for at in 0..end {
        if glue >= limit {
            return (glue, at);
        }
        let level = graph.level(clauses.lit(cref, at).var());
        if !flags.flags[level] {
            flags.flags[level] = true;
            glue += 1;
        }
    }
    (glue, end)
}

/// Clears the flags of the levels among the first `seen` literals of a clause.
fn clear_clause_levels(
    flags: &mut TmpFlags,
    graph: &ImplGraph,
    clauses: &ClauseAlloc,
    cref: ClauseRef,
    seen: usize,
)
    requires clause { IsClause clauses.now cref }
    requires nodes { LitsHaveNodes graph.now (lits_at clauses.now cref) }
    requires levels { LevelsHaveFlags graph.now flags.old.flags.items (lits_at clauses.now cref) }
    requires within { seen ≤ length (lits_at clauses.now cref) }
    requires marked { FlagsMarkLevels flags.old.flags.items
        (take seen (levels_of graph.now (lits_at clauses.now cref))) }
    ensures size { length flags.new.flags.items ≡ length flags.old.flags.items }
    ensures clear { (k : ℕ) → k < length flags.new.flags.items → slice_index_or flags.new.flags.items k false ≡ false }
{
    for at in 0..seen {
        let level = graph.level(clauses.lit(cref, at).var());
        flags.flags[level] = false;
    }
}
