//! Restarts a search.
ghost use Rattle.sat_parts.specs.parts.Whole.{SearchStateInvariant};
ghost use Rattle.sat_solver.specs.load.Restart.{FullyRestarted};

use crate::context::Search;
use sat_parts::parts::steps;

/// Undoes all levels above 0. Afterwards, the first assumption is the next one to be considered.
pub fn full_restart(search: &mut Search)
    requires { SearchStateInvariant search.old.parts }
    ensures { FullyRestarted search.old search.new }
{
    steps::full_restart(&mut search.parts);
    search.assumptions.begin();
}
