//! The assumptions of an ask, and how many of them are on the trail.
ghost use Rattle.std.specs.Prelude.{◌≡◌, ◌+◌, ◌-◌, ◌<◌, ◌≤◌, OnOk, IfOk, MatchOption, [], length, slice_index_or};
ghost use Rattle.sat_base.specs.values.Literals.{variable};
ghost use Rattle.sat_parts.specs.prop.Values.{IsUnassignedLit};
ghost use Rattle.sat_parts.specs.prop.State.{PropagationState};
ghost use Rattle.sat_parts.specs.parts.Whole.{state, SearchStateInvariant, IsFullyPropagated};
ghost use Rattle.sat_parts.specs.parts.Words.{KeepsRemovedAndIdleForAll, TrailWordExtendsFor};
ghost use Rattle.sat_parts.specs.parts.Assumed.{HaveVariablesIn, variables_of_lits, PlacesAreCorrect};
ghost use Rattle.sat_parts.specs.parts.Assumed.{EnqueueAssumptionEffect};
ghost use Rattle.sat_parts.specs.parts.Assumed.{UndoesPlacesTo};
ghost use Rattle.sat_parts.specs.parts.Assumed.{AreTrueFromTo, IsUntrueAt};
ghost use Rattle.sat_parts.specs.parts.Frame.{AddsNoUnit, SameClauses, AddsNoClauseOrUnit, KeepsLevels, OpensLevel};

use crate::parts::SearchState;
use crate::parts::steps::{assume, undo};
use sat_base::Lit;
use std::alloc::{AllocError, Global};

/// The literals that an ask assumes.
///
/// Before any decision, the assumptions are made true in order, each at a level of its own. An assumption that is
/// already true gets no level.
#[derive(Drop)]
pub struct Assumptions {
    /// All assumptions.
    pub lits: Vec<Lit>,
    /// For level 0 and every level of an assumption except the last: the position in `lits` of the first assumption
    /// that has not been considered at that level.
    pub below: Vec<usize>,
    /// The position in `lits` of the first assumption that has not been considered at the last of these levels.
    pub place: usize,
}

/// The result of enqueueing an assumption.
#[derive(Clone, Copy)]
pub enum EnqueueAssumption {
    /// All assumptions are true.
    Done,
    /// One assumption became true, at a level of its own.
    Enqueued,
    /// This assumption is false.
    Conflict(Lit),
}

impl Assumptions {
    /// Returns an empty list of assumptions. Never allocates.
    pub fn new(alloc: Global) -> Assumptions
        ensures none { result.lits.items ≡ [] }
        ensures placed { (s : PropagationState) → PlacesAreCorrect result s }
    {
        Assumptions {
            lits: Vec::new(alloc),
            below: Vec::new(alloc),
            place: 0,
        }
    }

    /// Returns the number of levels that begin with an assumption.
    pub fn levels(&self) -> usize
        ensures { result ≡ length self.now.below.items }
    {
        self.below.len()
    }

    /// Starts again with the first assumption. Must be called for a new list, and after all levels have been undone.
    pub fn begin(&mut self)
        ensures lits { self.new.lits ≡ self.old.lits }
        ensures placed { (s : PropagationState) → s.trail.starts ≡ [] → PlacesAreCorrect self.new s }
    {
        self.below.clear();
        self.place = 0;
    }

    /// Goes back to the first assumption that has not been considered at `level`. Must be called when the levels above
    /// `level` are undone.
    pub fn cut(&mut self, level: usize)
        ensures lits { self.new.lits ≡ self.old.lits }
        ensures placed { UndoesPlacesTo level self.old self.new }
    {
        if level >= self.below.len() {
            return;
        }
        self.place = self.below[level];
        self.below.truncate(level);
    }
}

/// Skips true assumptions. Returns the next assumption that is not true, or `None` if all are true.
fn next_untrue(parts: &SearchState, assumptions: &mut Assumptions) -> Option<Lit>
    requires there { HaveVariablesIn assumptions.old.lits.items parts.now }
    requires within { assumptions.old.place ≤ length assumptions.old.lits.items }
    ensures lits { assumptions.new.lits ≡ assumptions.old.lits }
    ensures below { assumptions.new.below ≡ assumptions.old.below }
    ensures within { assumptions.new.place ≤ length assumptions.new.lits.items }
    ensures further { assumptions.old.place ≤ assumptions.new.place }
    ensures passed { AreTrueFromTo parts.now assumptions.old.lits.items assumptions.old.place assumptions.new.place }
    ensures next { MatchOption result (assumptions.new.place ≡ length assumptions.old.lits.items)
        (IsUntrueAt parts.now assumptions.old.lits.items assumptions.new.place) }
{
    while assumptions.place < assumptions.lits.len() {
        let lit = assumptions.lits[assumptions.place];
        if !parts.assignment.lit_is_true(lit) {
            return Some(lit);
        }
        assumptions.place += 1;
    }
    None
}

/// Begins a level with the current assumption `lit`, which must be unassigned.
fn begin_level(
    parts: &mut SearchState,
    assumptions: &mut Assumptions,
    lit: Lit,
) -> Result<(), AllocError>
    requires holds { SearchStateInvariant parts.old }
    requires done { IsFullyPropagated parts.old }
    requires there { variable lit < length parts.old.assignment.current }
    requires open { IsUnassignedLit parts.old.assignment.current lit }
    requires placed { PlacesAreCorrect assumptions.old (state parts.old) }
    requires next { assumptions.old.place < length assumptions.old.lits.items }
    requires is { slice_index_or assumptions.old.lits.items assumptions.old.place 0 ≡ lit }
    ensures holds { OnOk result (SearchStateInvariant parts.new) }
    ensures lits { assumptions.new.lits ≡ assumptions.old.lits }
    ensures placed { OnOk result (PlacesAreCorrect assumptions.new (state parts.new)) }
    ensures word { OnOk result (TrailWordExtendsFor (variables_of_lits assumptions.old.lits.items) parts.old parts.new) }
    ensures same { OnOk result (AddsNoClauseOrUnit parts.old parts.new) }
    ensures keeps { OnOk result (KeepsLevels parts.old parts.new) }
    ensures deeper { OnOk result (OpensLevel parts.old parts.new) }
{
    assumptions.below.push(assumptions.place)?;
    assumptions.place += 1;
    assume(parts, lit)
}

/// Assigns the next assumption that is not true yet, at a new level, unless it is false or there is none. Returns which
/// of these three was the case.
pub fn enqueue_assumption(
    parts: &mut SearchState,
    assumptions: &mut Assumptions,
) -> Result<EnqueueAssumption, AllocError>
    requires holds { SearchStateInvariant parts.old }
    requires done { IsFullyPropagated parts.old }
    requires there { HaveVariablesIn assumptions.old.lits.items parts.old }
    requires placed { PlacesAreCorrect assumptions.old (state parts.old) }
    ensures holds { OnOk result (SearchStateInvariant parts.new) }
    ensures lits { assumptions.new.lits ≡ assumptions.old.lits }
    ensures placed { OnOk result (PlacesAreCorrect assumptions.new (state parts.new)) }
    ensures word { OnOk result (TrailWordExtendsFor (variables_of_lits assumptions.old.lits.items) parts.old parts.new) }
    ensures same { OnOk result (AddsNoClauseOrUnit parts.old parts.new) }
    ensures keeps { OnOk result (KeepsLevels parts.old parts.new) }
    ensures says { IfOk result (λ r. EnqueueAssumptionEffect r assumptions.new parts.old parts.new) }
{
    let next = next_untrue(parts, assumptions);
    match next {
        None => Ok(EnqueueAssumption::Done),
        Some(lit) => {
            if parts.assignment.lit_is_false(lit) {
                return Ok(EnqueueAssumption::Conflict(lit));
            }
            begin_level(parts, assumptions, lit)?;
            Ok(EnqueueAssumption::Enqueued)
        }
    }
}

/// Undoes all decisions, but keeps the levels of assumptions.
pub fn restart(parts: &mut SearchState, assumptions: &Assumptions)
    requires holds { SearchStateInvariant parts.old }
    requires placed { PlacesAreCorrect assumptions.now (state parts.old) }
    ensures holds { SearchStateInvariant parts.new }
    ensures levels { length parts.new.trail.starts ≡ length assumptions.now.below.items }
    ensures placed { PlacesAreCorrect assumptions.now (state parts.new) }
    ensures same { SameClauses parts.old parts.new }
    ensures carries { AddsNoUnit (state parts.old) (state parts.new) }
    ensures stay { KeepsRemovedAndIdleForAll parts.old parts.new }
{
    let levels = assumptions.levels();
    if parts.trail.current_level() <= levels {
        return;
    }
    undo(parts, levels);
}
