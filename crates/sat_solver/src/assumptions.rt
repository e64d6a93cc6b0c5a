//! Assumptions of a search.
ghost use Rattle.std.specs.Prelude.{◌≡◌, OnOk, []};
ghost use Rattle.sat_parts.specs.parts.Assumed.{HaveVariablesIn};
ghost use Rattle.sat_solver.specs.assumptions.Setting.{ReplacesAssumed};

pub mod analyze;
pub mod failed_core;

use crate::context::Search;
use sat_base::Lit;
use std::alloc::AllocError;

/// Replaces the assumptions with `lits`. The search must be at level 0.
pub fn set_assumptions(search: &mut Search, lits: &[Lit]) -> Result<(), AllocError>
    requires bottom { search.old.parts.trail.starts ≡ [] }
    requires there { HaveVariablesIn lits.now search.old.parts }
    ensures { OnOk result (ReplacesAssumed lits.now search.old search.new) }
{
    search.assumptions.lits.clear();
    search.assumptions.lits.extend_from_slice(lits)?;
    search.assumptions.begin();
    Ok(())
}
