//! Prepares freed variables for reuse.
ghost use Rattle.std.specs.Prelude.{◌≡◌, ◌<◌, length, [], true, false, slice_set};
ghost use Rattle.sat_base.specs.values.Literals.{variable};
ghost use Rattle.sat_store.specs.heap.Vsids.{is_available, with_available};
ghost use Rattle.sat_parts.specs.prop.State.{IsRemovedUnit};
ghost use Rattle.sat_parts.specs.prop.Values.{IsUnassignedLit, with_true_lit};
ghost use Rattle.sat_parts.specs.parts.Whole.{state, SearchStateInvariant};
ghost use Rattle.sat_parts.specs.parts.Frame.{SameClauses, GainsUnit, SameContents};

use crate::parts::SearchState;
use sat_base::{Lit, Var};

/// Makes a variable available for decisions.
pub fn make_available(parts: &mut SearchState, var: Var)
    requires holds { SearchStateInvariant parts.old }
    requires there { var < length parts.old.assignment.current }
    ensures holds { SearchStateInvariant parts.new }
    ensures same { SameContents parts.old parts.new }
    ensures queue { parts.new.vsids ≡ with_available var true parts.old.vsids }
{
    parts.vsids.make_available(var);
}

/// Sets the activity of an unavailable variable to 0.
pub fn reset_activity(parts: &mut SearchState, var: Var)
    requires holds { SearchStateInvariant parts.old }
    requires there { var < length parts.old.assignment.current }
    requires given_up { is_available parts.old.vsids var ≡ false }
    ensures holds { SearchStateInvariant parts.new }
    ensures same { SameContents parts.old parts.new }
    ensures queue { parts.new.vsids
        ≡ record parts.old.vsids { activities = slice_set parts.old.vsids.activities var 0 } }
{
    parts.vsids.reset(var);
}

/// Makes `lit` true as a removed unit, which is not on the trail. The variable must be unassigned and unavailable.
pub fn use_with_unit(parts: &mut SearchState, lit: Lit)
    requires holds { SearchStateInvariant parts.old }
    requires bottom { parts.old.trail.starts ≡ [] }
    requires there { variable lit < length parts.old.assignment.current }
    requires open { IsUnassignedLit parts.old.assignment.current lit }
    requires given_up { is_available parts.old.vsids (variable lit) ≡ false }
    ensures holds { SearchStateInvariant parts.new }
    ensures same { SameClauses parts.old parts.new }
    ensures gains { GainsUnit lit (state parts.old) (state parts.new) }
    ensures removed { IsRemovedUnit (state parts.new) lit }
    ensures values { parts.new.assignment ≡ with_true_lit lit parts.old.assignment }
    ensures queue { parts.new.vsids ≡ parts.old.vsids }
    ensures trail { parts.new.trail ≡ parts.old.trail }
{
    parts.assignment.assign_lit(lit);
    parts.graph.update_removed_unit(lit.var());
}
