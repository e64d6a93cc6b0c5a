//! Changes to the clauses between rounds: deletion, reduction, garbage collection, activities.
ghost use Rattle.std.specs.Prelude.{ℕ, ◌≡◌, ◌^◌, ◌<◌, ◌≢◌, ◌≤◌, ◌/◌, OnOk, length, [], true, false};
ghost use Rattle.sat_base.specs.values.Literals.{negated};
ghost use Rattle.sat_store.specs.clause.Buffer.{header_at};
ghost use Rattle.sat_store.specs.clause.Header.{is_learned};
ghost use Rattle.sat_store.specs.heap.Vsids.{bumped, decayed};
ghost use Rattle.sat_parts.specs.clause.Activity.{PutsHeaders, DecaysAndRescales, decayed_bump, decayed_scale};
ghost use Rattle.sat_parts.specs.clause.Activity.{BumpsIfBelowLimit};
ghost use Rattle.sat_parts.specs.clause.Activity.{RescalesIfLimitReached};
ghost use Rattle.sat_parts.specs.clause.Reduced.{reduced_header};
ghost use Rattle.sat_parts.specs.clause.Stored.{lit_of, size_of};
ghost use Rattle.sat_parts.specs.prop.State.{HasLeftQueue};
ghost use Rattle.sat_parts.specs.clause.Db.{PutsHeader, MovesClauseToTier, IsLockedClause};
ghost use Rattle.sat_parts.specs.parts.Whole.{state, SearchStateInvariant, HasLongClause};
ghost use Rattle.sat_parts.specs.parts.Words.{TrailWordExtends};
ghost use Rattle.sat_parts.specs.parts.Frame.{ChangesHeaders, DeletesLongClause, MovesLongClauses, SwapsLits};
ghost use Rattle.sat_parts.specs.parts.Frame.{ShortensLongClause, RemovesBinaries, SameContents};
ghost use Rattle.sat_store.specs.clause.Full.{IfStoreFull};

use crate::parts::SearchState;
use crate::{
    ClauseActivity, bump_clause_activity, collect_garbage, decay_clause_activities, delete_clause,
    set_clause_tier, shorten_clause, try_delete_clause,
};
use sat_base::Var;
use sat_store::{ClauseHeader, ClauseRef, StoreError, Tier};
use std::alloc::Global;

/// Deletes a live clause unless its first literal is true and the clause is the reason for that literal. Returns
/// whether the clause was deleted.
pub fn drop_clause(parts: &mut SearchState, cref: ClauseRef) -> bool
    requires holds { SearchStateInvariant parts.old }
    requires live { HasLongClause parts.old cref }
    ensures holds { SearchStateInvariant parts.new }
    ensures dropped { result ≡ true → DeletesLongClause parts.old parts.new cref }
    ensures free { result ≡ true → IsLockedClause parts.old.clauses parts.old.assignment.current parts.old.graph cref
        → ⊥ }
    ensures kept { result ≡ false → IsLockedClause parts.old.clauses parts.old.assignment.current parts.old.graph cref
        × (parts.new ≡ parts.old) }
    ensures others { (p : ℕ) → p ≢ cref → HasLongClause parts.old p → HasLongClause parts.new p }
    ensures word { TrailWordExtends parts.old parts.new }
{
    try_delete_clause(
        &mut parts.clauses,
        &mut parts.db,
        &mut parts.watchlists,
        &parts.graph,
        &parts.assignment,
        cref,
    )
}

/// Deletes a live clause. The trail must be empty.
pub fn delete_long(parts: &mut SearchState, cref: ClauseRef)
    requires holds { SearchStateInvariant parts.old }
    requires empty { parts.old.trail.lits ≡ [] }
    requires live { HasLongClause parts.old cref }
    ensures holds { SearchStateInvariant parts.new }
    ensures dropped { DeletesLongClause parts.old parts.new cref }
    ensures word { TrailWordExtends parts.old parts.new }
{
    delete_clause(
        &mut parts.clauses,
        &mut parts.db,
        &mut parts.watchlists,
        cref,
    );
}

/// Moves to tier Local the clauses in tier Mid that have not been used since the last call.
pub fn reduce_mids(parts: &mut SearchState)
    requires holds { SearchStateInvariant parts.old }
    ensures holds { SearchStateInvariant parts.new }
    ensures headers { PutsHeaders parts.old.clauses parts.new.clauses parts.old.db.refs
        (λ o. reduced_header (header_at parts.old.clauses o)) }
    ensures headed { ChangesHeaders parts.old parts.new }
    ensures word { TrailWordExtends parts.old parts.new }
{
    crate::reduce_mids(&mut parts.clauses, &mut parts.db);
}

/// Collects garbage if deleted clauses take up more than half of the buffer.
pub fn collect(alloc: Global, parts: &mut SearchState) -> Result<(), StoreError>
    requires holds { SearchStateInvariant parts.old }
    ensures holds { SearchStateInvariant parts.new }
    ensures copied { MovesLongClauses parts.old parts.new }
    ensures due { length parts.old.clauses / 2 < parts.old.db.garbage → OnOk result (parts.new.db.garbage ≡ 0) }
    ensures not_due { parts.old.db.garbage ≤ length parts.old.clauses / 2 → parts.new ≡ parts.old }
    ensures room { IfStoreFull result ⊥ }
    ensures word { TrailWordExtends parts.old parts.new }
{
    collect_garbage(
        alloc,
        &mut parts.clauses,
        &mut parts.db,
        &mut parts.graph,
        &mut parts.watchlists,
        &parts.trail,
    )
}

/// Replaces the header of a live clause. The new header must have the same activity, deleted flag, tier and length as
/// the old one.
pub fn put_header(parts: &mut SearchState, cref: ClauseRef, header: ClauseHeader)
    requires holds { SearchStateInvariant parts.old }
    requires live { HasLongClause parts.old cref }
    requires deleted { header.deleted ≡ (header_at parts.old.clauses cref).deleted }
    requires tier { header.tier ≡ (header_at parts.old.clauses cref).tier }
    requires len { header.len ≡ (header_at parts.old.clauses cref).len }
    requires activity { header.activity ≡ (header_at parts.old.clauses cref).activity }
    ensures holds { SearchStateInvariant parts.new }
    ensures put { PutsHeader parts.old.clauses parts.new.clauses parts.old.db.refs cref header }
    ensures db { parts.new.db ≡ parts.old.db }
    ensures headed { ChangesHeaders parts.old parts.new }
    ensures word { TrailWordExtends parts.old parts.new }
{
    parts.clauses.set_flags(cref, header);
}

/// Moves a live clause to another tier. A learned clause must stay learned, and an irredundant clause must
/// stay irredundant.
pub fn set_tier(parts: &mut SearchState, cref: ClauseRef, tier: Tier)
    requires holds { SearchStateInvariant parts.old }
    requires live { HasLongClause parts.old cref }
    requires side { is_learned tier ≡ is_learned (header_at parts.old.clauses cref).tier }
    ensures holds { SearchStateInvariant parts.new }
    ensures moves { MovesClauseToTier parts.old.clauses parts.old.db parts.new.clauses parts.new.db cref tier }
    ensures headed { ChangesHeaders parts.old parts.new }
    ensures word { TrailWordExtends parts.old parts.new }
{
    set_clause_tier(&mut parts.clauses, &mut parts.db, cref, tier);
}

/// Swaps two literals of a live clause. `i` and `j` must be at least 2.
pub fn swap_unwatched(parts: &mut SearchState, cref: ClauseRef, i: usize, j: usize)
    requires holds { SearchStateInvariant parts.old }
    requires live { HasLongClause parts.old cref }
    requires first_unwatched { 2 ≤ i }
    requires second_unwatched { 2 ≤ j }
    requires first_within { i < size_of parts.old.clauses cref }
    requires second_within { j < size_of parts.old.clauses cref }
    ensures holds { SearchStateInvariant parts.new }
    ensures swapped { SwapsLits parts.old parts.new cref i j }
    ensures db { parts.new.db ≡ parts.old.db }
    ensures word { TrailWordExtends parts.old parts.new }
{
    parts.clauses.swap_lits(cref, i, j);
}

/// Drops the literals of a live clause from position `len` on. `len` must be at least 3.
///
/// The negations of the first two literals must not have left the queue.
pub fn shorten(parts: &mut SearchState, cref: ClauseRef, len: usize)
    requires holds { SearchStateInvariant parts.old }
    requires live { HasLongClause parts.old cref }
    requires long { 3 ≤ len }
    requires no_longer { len ≤ size_of parts.old.clauses cref }
    requires fresh { (i : ℕ) → i < 2 → HasLeftQueue (state parts.old) (negated (lit_of parts.old.clauses cref i)) → ⊥ }
    ensures holds { SearchStateInvariant parts.new }
    ensures shortened { ShortensLongClause parts.old parts.new cref len }
    ensures word { TrailWordExtends parts.old parts.new }
{
    shorten_clause(
        &mut parts.clauses,
        &parts.db,
        &mut parts.watchlists,
        cref,
        len,
    );
}

/// Removes the binary clauses that contain an assigned variable. The trail must be empty.
pub fn remove_binary(parts: &mut SearchState)
    requires holds { SearchStateInvariant parts.old }
    requires empty { parts.old.trail.lits ≡ [] }
    ensures holds { SearchStateInvariant parts.new }
    ensures removed { RemovesBinaries parts.old parts.new }
    ensures word { TrailWordExtends parts.old parts.new }
{
    parts.binary.remove_assigned(&parts.assignment);
}

/// Raises the activity of a live clause.
pub fn bump_activity(parts: &mut SearchState, activity: &mut ClauseActivity, cref: ClauseRef)
    requires holds { SearchStateInvariant parts.old }
    requires live { HasLongClause parts.old cref }
    ensures holds { SearchStateInvariant parts.new }
    ensures raised { BumpsIfBelowLimit parts.old.clauses parts.new.clauses parts.old.db.refs cref activity.old activity.new }
    ensures rescaled { RescalesIfLimitReached parts.old.clauses parts.new.clauses parts.old.db.refs cref activity.old activity.new }
    ensures db { parts.new.db ≡ parts.old.db }
    ensures headed { ChangesHeaders parts.old parts.new }
    ensures word { TrailWordExtends parts.old parts.new }
{
    bump_clause_activity(activity, &mut parts.clauses, &parts.db, cref);
}

/// Raises the activity of a variable.
pub fn bump_variable(parts: &mut SearchState, var: Var)
    requires holds { SearchStateInvariant parts.old }
    requires there { var < length parts.old.assignment.current }
    ensures holds { SearchStateInvariant parts.new }
    ensures same { SameContents parts.old parts.new }
    ensures queue { parts.new.vsids ≡ bumped var parts.old.vsids }
    ensures picks { parts.new.vsids.available ≡ parts.old.vsids.available }
    ensures word { TrailWordExtends parts.old parts.new }
{
    parts.vsids.bump(var);
}

/// Lets the activities of clauses decay, by making later bumps add more.
pub fn decay_clauses(parts: &mut SearchState, activity: &mut ClauseActivity)
    requires holds { SearchStateInvariant parts.old }
    ensures holds { SearchStateInvariant parts.new }
    ensures later { decayed_bump activity.old < 2 ^ 30
        → (activity.new ≡ decayed_scale activity.old) × (parts.new.clauses ≡ parts.old.clauses) }
    ensures rescaled { 2 ^ 30 ≤ decayed_bump activity.old
        → DecaysAndRescales parts.old.clauses parts.new.clauses parts.old.db.refs activity.old activity.new }
    ensures db { parts.new.db ≡ parts.old.db }
    ensures headed { ChangesHeaders parts.old parts.new }
    ensures word { TrailWordExtends parts.old parts.new }
{
    decay_clause_activities(activity, &mut parts.clauses, &parts.db);
}

/// Lets the activities of variables decay, by making later bumps add more.
pub fn decay_variables(parts: &mut SearchState)
    requires holds { SearchStateInvariant parts.old }
    ensures holds { SearchStateInvariant parts.new }
    ensures same { SameContents parts.old parts.new }
    ensures queue { parts.new.vsids ≡ decayed parts.old.vsids }
    ensures picks { parts.new.vsids.available ≡ parts.old.vsids.available }
    ensures word { TrailWordExtends parts.old parts.new }
{
    parts.vsids.decay();
}
