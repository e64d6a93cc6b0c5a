//! A test for whether the clauses that a line names are present.
ghost use Rattle.std.specs.Prelude.{◌≡◌, ◌≢◌, None, MatchBool};
ghost use Rattle.sat_hints.specs.inner.ActiveClauses.{active_clauses, ActiveClausesInvariant};

use crate::active_clauses::ActiveClauses;

/// Returns `true` if a clause is present under every id in `ids`.
pub(crate) fn are_present(active: &ActiveClauses, ids: &[u64]) -> bool
    requires { ActiveClausesInvariant active.now }
    ensures { MatchBool result (active_clauses active.now ids.now ≢ None) (active_clauses active.now ids.now ≡ None) }
{
    for id in ids {
        let Some(_place) = active.find(*id) else {
            return false;
        };
    }
    true
}
