//! Grades learned clauses by the levels of their literals.
ghost use Rattle.std.specs.Prelude.{◌≡◌, ◌<◌};
ghost use Rattle.sat_store.specs.clause.Buffer.{header_at};
ghost use Rattle.sat_parts.specs.clause.Db.{PutsHeader};
ghost use Rattle.sat_parts.specs.clause.Glue.{levels_of, count_distinct, LitsHaveNodes, LevelsHaveFlags, FlagsAreClear};
ghost use Rattle.sat_parts.specs.parts.Whole.{SearchStateInvariant, HasLongClause};
ghost use Rattle.sat_solver.specs.clause.Assessed.{tier_for, learned_header, with_updated_glue, ChangesOnlyHeaders};

use sat_base::Lit;
use sat_parts::parts::clauses::{put_header, set_tier};
use sat_parts::{ImplGraph, SearchState, compute_glue};
use sat_store::{ClauseHeader, ClauseRef, Tier, TmpFlags};

/// Returns the tier of a learned clause whose glue is `glue`.
fn select_tier(glue: usize) -> Tier
    ensures { result ≡ tier_for glue }
{
    if glue <= 2 {
        return Tier::Core;
    }
    if glue <= 6 { Tier::Mid } else { Tier::Local }
}

/// Returns the header of the learned clause `lits`, whose glue is one less than the number of distinct levels of
/// its literals.
pub fn assess_learned_clause(flags: &mut TmpFlags, graph: &ImplGraph, lits: &[Lit]) -> ClauseHeader
    requires nodes { LitsHaveNodes graph.now lits.now }
    requires levels { LevelsHaveFlags graph.now flags.old.flags.items lits.now }
    requires clear { FlagsAreClear flags.old.flags.items }
    ensures header { result ≡ learned_header (count_distinct (levels_of graph.now lits.now)) }
    ensures clear { flags.new.flags.items ≡ flags.old.flags.items }
{
    let glue = compute_glue(flags, graph, lits).saturating_sub(1);
    let mut header = ClauseHeader::new();
    header.set_glue(glue);
    header.set_tier(select_tier(glue));
    header
}

/// Marks an antecedent as active. If the clause is redundant and `levels` is lower than its glue, its glue becomes
/// `levels`, and its tier is set accordingly.
pub fn update_glue(parts: &mut SearchState, cref: ClauseRef, levels: usize)
    requires holds { SearchStateInvariant parts.old }
    requires live { HasLongClause parts.old cref }
    ensures rates { ChangesOnlyHeaders parts.old parts.new }
    ensures put { PutsHeader parts.old.clauses parts.new.clauses parts.old.db.refs cref
        (with_updated_glue levels (header_at parts.old.clauses cref)) }
{
    let mut header = parts.clauses.header(cref);
    header.set_active(true);
    if !header.redundant() {
        put_header(parts, cref, header);
        return;
    }
    if levels >= header.glue() {
        put_header(parts, cref, header);
        return;
    }
    header.set_glue(levels);
    put_header(parts, cref, header);
    set_tier(parts, cref, select_tier(levels));
}
