//! Removes units at level 0 from the trail, and moves them back to it.
ghost use Rattle.std.specs.Prelude.{ℕ, ◌≡◌, ◌+◌, [], length};
ghost use Rattle.sat_parts.specs.prop.Values.{IsTrueLit, value_of};
ghost use Rattle.sat_parts.specs.prop.State.{HasLeftQueue};
ghost use Rattle.sat_parts.specs.parts.Whole.{state, SearchStateInvariant, SearchStateInvariantBelow};
ghost use Rattle.sat_parts.specs.parts.Whole.{IsFullyPropagated};
ghost use Rattle.sat_parts.specs.parts.Words.{TrailWordExtends};
ghost use Rattle.sat_parts.specs.parts.Units.{with_removed_units};
ghost use Rattle.sat_parts.specs.parts.Frame.{AddsNoUnit, ClearsUnits, SameClauses};
ghost use Rattle.sat_parts.specs.clause.Glue.{LitsHaveNodes};

use crate::parts::SearchState;
use crate::{ImplGraph, Reason, Trail, enqueue_assignment};
use sat_base::Lit;

/// Marks the literals on the trail as removed units.
fn mark_removed(graph: &mut ImplGraph, trail: &Trail)
    requires { LitsHaveNodes graph.old trail.now.lits }
    ensures { graph.new ≡ with_removed_units trail.now.lits graph.old }
{
    for lit in trail.trail() {
        graph.update_removed_unit(lit.var());
    }
}

/// Removes the literals at level 0 from the trail. There must be no other level, and all literals must have
/// been propagated.
pub fn clear_units(parts: &mut SearchState)
    requires holds { SearchStateInvariantBelow (length parts.old.trail.starts + 1) parts.old }
    requires bottom { parts.old.trail.starts ≡ [] }
    requires done { IsFullyPropagated parts.old }
    ensures holds { SearchStateInvariant parts.new }
    ensures done { IsFullyPropagated parts.new }
    ensures bottom { parts.new.trail.starts ≡ [] }
    ensures empty { parts.new.trail.lits ≡ [] }
    ensures same { SameClauses parts.old parts.new }
    ensures clears { ClearsUnits (state parts.old) (state parts.new) }
    ensures word { TrailWordExtends parts.old parts.new }
{
    mark_removed(&mut parts.graph, &parts.trail);
    parts.trail.clear();
}

/// Moves a true literal back to the trail and the queue, if it was removed from the trail as a unit.
pub fn resurrect_unit(parts: &mut SearchState, lit: Lit)
    requires holds { SearchStateInvariant parts.old }
    requires bottom { parts.old.trail.starts ≡ [] }
    requires true_lit { IsTrueLit parts.old.assignment.current lit }
    ensures holds { SearchStateInvariant parts.new }
    ensures bottom { parts.new.trail.starts ≡ [] }
    ensures values { (v : ℕ) → value_of parts.new.assignment.current v ≡ value_of parts.old.assignment.current v }
    ensures size { length parts.new.assignment.current ≡ length parts.old.assignment.current }
    ensures queue { parts.new.vsids ≡ parts.old.vsids }
    ensures fresh { HasLeftQueue (state parts.new) lit → ⊥ }
    ensures left { (l : ℕ) → HasLeftQueue (state parts.new) l → HasLeftQueue (state parts.old) l }
    ensures same { SameClauses parts.old parts.new }
    ensures carries { AddsNoUnit (state parts.old) (state parts.new) }
{
    if parts.graph.is_removed_unit(lit.var()) {
        parts.assignment.unassign_var(lit.var());
        enqueue_assignment(
            &mut parts.assignment,
            &mut parts.graph,
            &mut parts.trail,
            lit,
            Reason::Unit,
        );
    }
}
