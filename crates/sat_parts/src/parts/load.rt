//! Loads clauses at level 0.
ghost use Rattle.std.specs.Prelude.{ℕ, ◌≡◌, ◌-◌, ◌*◌, ◌^◌, ◌<◌, ◌≤◌, OnOk, IfOk, None, length, slice_index_or, []};
ghost use Rattle.std.specs.Prelude.{true, false};
ghost use Rattle.sat_base.specs.values.Literals.{variable, negated};
ghost use Rattle.sat_store.specs.heap.Vsids.{is_available};
ghost use Rattle.sat_parts.specs.clause.Orders.{AreDistinct};
ghost use Rattle.sat_parts.specs.declared.prop.graph.Reason.TheVariants.{Unit as NoCause};
ghost use Rattle.sat_parts.specs.prop.State.{HasLeftQueue, enqueued};
ghost use Rattle.sat_parts.specs.prop.Values.{IsUnassignedLit, IsFalseLit, value_of};
ghost use Rattle.sat_parts.specs.parts.Loadable.{IsLoadable, false_last, IsUnassignedThenFalse};
ghost use Rattle.sat_parts.specs.parts.Whole.{state, SearchStateInvariant};
ghost use Rattle.sat_parts.specs.parts.Frame.{AddsNoUnit, SameClauses, SameState, GainsUnit, AddsOriginalClause};
ghost use Rattle.sat_parts.specs.parts.Frame.{SameQueues};
ghost use Rattle.sat_parts.specs.parts.Full.{IsBufferFull};
ghost use Rattle.sat_parts.specs.parts.Loading.{LoadEffect};
ghost use Rattle.sat_parts.specs.parts.Words.{TrailWordExtends};
ghost use Rattle.sat_store.specs.clause.Full.{IfStoreFull};

use crate::parts::SearchState;
use crate::parts::sorting::{Sorting, join_false, split_false};
use crate::parts::units::resurrect_unit;
use crate::{Assignment, Reason, add_clause, enqueue_assignment};
use sat_base::{Lit, Var};
use sat_store::{ClauseHeader, StoreError};
use std::alloc::{AllocError, Global};

/// The result of loading a clause.
#[derive(Clone, Copy)]
pub enum Loaded {
    /// The clause was stored.
    Stored,
    /// The clause has one literal, which became true.
    Unit,
    /// A literal of the clause was already true, so the clause was not stored.
    Satisfied,
    /// The clause is empty, or its only literal is false: no assignment satisfies the formula.
    Falsified,
}

/// Stores a long clause.
pub fn load_long(parts: &mut SearchState, lits: &[Lit]) -> Result<(), StoreError>
    requires holds { SearchStateInvariant parts.old }
    requires long { 3 ≤ length lits.now }
    requires fits { length lits.now < 2 ^ 32 }
    requires loadable { IsLoadable (state parts.old) parts.old.vsids lits.now }
    ensures holds { OnOk result (SearchStateInvariant parts.new) }
    ensures stores { OnOk result (AddsOriginalClause parts.old parts.new lits.now) }
    ensures kept { OnOk result (SameQueues parts.old parts.new) }
    ensures full { IfStoreFull result (IsBufferFull parts.new) }
{
    let header = ClauseHeader::new();
    let cref = add_clause(
        &mut parts.clauses,
        &mut parts.db,
        &mut parts.watchlists,
        header,
        lits,
    )?;
    let _ = cref;
    Ok(())
}

/// Stores a binary clause.
pub fn load_binary(parts: &mut SearchState, lits: &[Lit]) -> Result<(), AllocError>
    requires holds { SearchStateInvariant parts.old }
    requires two { length lits.now ≡ 2 }
    requires loadable { IsLoadable (state parts.old) parts.old.vsids lits.now }
    ensures holds { OnOk result (SearchStateInvariant parts.new) }
    ensures stores { OnOk result (AddsOriginalClause parts.old parts.new lits.now) }
    ensures kept { OnOk result (SameQueues parts.old parts.new) }
    ensures state { OnOk result (SameState parts.old parts.new) }
    ensures word { OnOk result (TrailWordExtends parts.old parts.new) }
{
    parts.binary.add_binary_clause([lits[0], lits[1]])?;
    Ok(())
}

/// Makes the literal of a unit clause true. The literal must be unassigned.
pub fn load_unit(parts: &mut SearchState, lit: Lit)
    requires holds { SearchStateInvariant parts.old }
    requires bottom { parts.old.trail.starts ≡ [] }
    requires there { variable lit < length parts.old.assignment.current }
    requires open { IsUnassignedLit parts.old.assignment.current lit }
    ensures holds { SearchStateInvariant parts.new }
    ensures bottom { parts.new.trail.starts ≡ [] }
    ensures same { SameClauses parts.old parts.new }
    ensures comes { state parts.new ≡ enqueued lit NoCause (state parts.old) }
    ensures gains { GainsUnit lit (state parts.old) (state parts.new) }
    ensures queue { parts.new.vsids ≡ parts.old.vsids }
{
    enqueue_assignment(
        &mut parts.assignment,
        &mut parts.graph,
        &mut parts.trail,
        lit,
        Reason::Unit,
    );
}

/// Moves the units that falsify the literals from position `kept` on back to the trail and the queue.
fn put_all_back(parts: &mut SearchState, lits: &[Lit], kept: usize)
    requires holds { SearchStateInvariant parts.old }
    requires bottom { parts.old.trail.starts ≡ [] }
    requires back { (k : ℕ) → kept ≤ k → k < length lits.now
        → IsFalseLit parts.old.assignment.current (slice_index_or lits.now k 0) }
    ensures holds { SearchStateInvariant parts.new }
    ensures bottom { parts.new.trail.starts ≡ [] }
    ensures values { (v : ℕ) → value_of parts.new.assignment.current v ≡ value_of parts.old.assignment.current v }
    ensures size { length parts.new.assignment.current ≡ length parts.old.assignment.current }
    ensures queue { parts.new.vsids ≡ parts.old.vsids }
    ensures fresh { (k : ℕ) → kept ≤ k → k < length lits.now
        → HasLeftQueue (state parts.new) (negated (slice_index_or lits.now k 0)) → ⊥ }
    ensures same { SameClauses parts.old parts.new }
    ensures carries { AddsNoUnit (state parts.old) (state parts.new) }
{
    for at in kept..lits.len() {
        resurrect_unit(parts, !lits[at]);
    }
}

/// Stores a clause of two or more literals.
fn load_some(parts: &mut SearchState, lits: &[Lit]) -> Result<(), StoreError>
    requires holds { SearchStateInvariant parts.old }
    requires some { 2 ≤ length lits.now }
    requires fits { length lits.now < 2 ^ 32 }
    requires loadable { IsLoadable (state parts.old) parts.old.vsids lits.now }
    ensures holds { OnOk result (SearchStateInvariant parts.new) }
    ensures stores { OnOk result (AddsOriginalClause parts.old parts.new lits.now) }
    ensures kept { OnOk result (SameQueues parts.old parts.new) }
    ensures full { IfStoreFull result (IsBufferFull parts.new) }
{
    if lits.len() == 2 {
        load_binary(parts, lits)?;
        return Ok(());
    }
    load_long(parts, lits)
}

/// Loads a clause without true literals, and returns how it was loaded. The false literals must be at the end, from
/// position `kept` on.
fn load_sorted(parts: &mut SearchState, lits: &[Lit], kept: usize) -> Result<Loaded, StoreError>
    requires holds { SearchStateInvariant parts.old }
    requires bottom { parts.old.trail.starts ≡ [] }
    requires fits { length lits.now < 2 ^ 32 }
    requires sorted { IsUnassignedThenFalse (state parts.old) parts.old.vsids lits.now kept }
    ensures holds { OnOk result (SearchStateInvariant parts.new) }
    ensures says { IfOk result (λ r. LoadEffect r parts.old parts.new lits.now) }
    ensures kept { OnOk result ((parts.new.vsids ≡ parts.old.vsids) × (parts.new.trail.starts ≡ [])) }
    ensures full { IfStoreFull result (IsBufferFull parts.new) }
{
    if lits.len() > 1 {
        load_some(parts, lits)?;
        return Ok(Loaded::Stored);
    }
    if kept == 0 {
        return Ok(Loaded::Falsified);
    }
    load_unit(parts, lits[0]);
    Ok(Loaded::Unit)
}

/// Loads a clause at level 0, and returns how it was loaded.
///
/// The false literals before the first true literal move to the end, in order, and the units that falsify them are
/// moved back to the queue. The clause is stored in this order, unless one of its literals is true or the clause has
/// fewer than two literals.
pub fn load(
    parts: &mut SearchState,
    given: &[Lit],
    sorting: &mut Sorting,
) -> Result<Loaded, StoreError>
    requires holds { SearchStateInvariant parts.old }
    requires bottom { parts.old.trail.starts ≡ [] }
    requires distinct { AreDistinct given.now }
    requires fits { length given.now < 2 ^ 32 }
    requires below { (k : ℕ) → k < length given.now
        → slice_index_or given.now k 0 < 2 * length parts.old.assignment.current }
    requires ready { (k : ℕ) → k < length given.now
        → value_of parts.old.assignment.current (variable (slice_index_or given.now k 0)) ≡ None
        → is_available parts.old.vsids (variable (slice_index_or given.now k 0)) ≡ true }
    ensures holds { OnOk result (SearchStateInvariant parts.new) }
    ensures order { OnOk result (sorting.new.lits.items ≡ false_last parts.old.assignment.current given.now) }
    ensures says { IfOk result (λ r. LoadEffect r parts.old parts.new
        (false_last parts.old.assignment.current given.now)) }
    ensures kept { OnOk result ((parts.new.vsids ≡ parts.old.vsids) × (parts.new.trail.starts ≡ [])) }
    ensures full { IfStoreFull result (IsBufferFull parts.new) }
{
    let found = split_false(sorting, given, &parts.assignment)?;
    let kept = join_false(sorting)?;
    put_all_back(parts, &sorting.lits, kept);
    if found {
        return Ok(Loaded::Satisfied);
    }
    load_sorted(parts, &sorting.lits, kept)
}
