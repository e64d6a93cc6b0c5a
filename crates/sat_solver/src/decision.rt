//! Variables that the search may pick for decisions.
ghost use Rattle.std.specs.Prelude.{ℕ, ◌≡◌, ◌<◌, None, true, false, length, slice_index_or};
ghost use Rattle.sat_base.specs.values.Literals.{variable};
ghost use Rattle.sat_store.specs.heap.Vsids.{is_available};
ghost use Rattle.sat_checker.specs.LiteralSets.{mentions};
ghost use Rattle.sat_parts.specs.prop.Values.{value_of};
ghost use Rattle.sat_parts.specs.parts.Whole.{SearchStateInvariant};
ghost use Rattle.sat_parts.specs.parts.Frame.{SameContents};
ghost use Rattle.sat_parts.specs.parts.Assumed.{HaveVariablesIn};

use sat_base::Lit;
use sat_parts::SearchState;
use sat_parts::parts::variables::make_available;

/// Allows the search to pick those variables of `lits` that have no value.
pub fn make_all_available(parts: &mut SearchState, lits: &[Lit])
    requires holds { SearchStateInvariant parts.old }
    requires there { HaveVariablesIn lits.now parts.old }
    ensures holds { SearchStateInvariant parts.new }
    ensures same { SameContents parts.old parts.new }
    ensures ready { (k : ℕ) → k < length lits.now
        → value_of parts.old.assignment.current (variable (slice_index_or lits.now k 0)) ≡ None
        → is_available parts.new.vsids (variable (slice_index_or lits.now k 0)) ≡ true }
    ensures others { (v : ℕ) → mentions lits.now v ≡ false → is_available parts.new.vsids v ≡ is_available parts.old.vsids v }
{
    for at in 0..lits.len() {
        let var = lits[at].var();
        if parts.assignment.var_value(var).is_none() {
            make_available(parts, var);
        }
    }
}
