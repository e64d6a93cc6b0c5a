//! The status of long clauses at level 0.
ghost use Rattle.std.specs.Prelude.{ℕ, ◌<◌};
ghost use Rattle.sat_parts.specs.clause.Stored.{lit_of, size_of};
ghost use Rattle.sat_parts.specs.prop.Values.{IsTrueLit, IsUnassignedLit};
ghost use Rattle.sat_parts.specs.parts.Whole.{SearchStateInvariant, HasLongClause};
ghost use Rattle.sat_solver.specs.unit_simplify.ClauseStatus.{HasClauseStatus};

use sat_parts::SearchState;
use sat_store::ClauseRef;

/// The status of a clause.
#[derive(Clone, Copy)]
pub enum ClauseStatus {
    /// A literal is true.
    Satisfied,
    /// No literal is true or false.
    Whole,
    /// No literal is true, and some literals are false.
    Shorter,
}

/// Returns the status of a clause whose literal at position `from` is assigned, and none of whose literals before
/// `from` is true.
#[tactic(auto, using(crate::proofs::lemmas::unit_simplify::StatusLemmas::false_from_assigned))]
fn clause_status_from(parts: &SearchState, cref: ClauseRef, from: usize) -> ClauseStatus
    requires holds { SearchStateInvariant parts.now }
    requires live { HasLongClause parts.now cref }
    requires before { (k : ℕ) → k < from → IsTrueLit parts.now.assignment.current (lit_of parts.now.clauses cref k)
        → ⊥ }
    requires within { from < size_of parts.now.clauses cref }
    requires there { IsUnassignedLit parts.now.assignment.current (lit_of parts.now.clauses cref from) → ⊥ }
    ensures { HasClauseStatus result parts.now cref }
{
    for at in from..parts.clauses.len(cref) {
        if parts.assignment.lit_is_true(parts.clauses.lit(cref, at)) {
            return ClauseStatus::Satisfied;
        }
    }
    ClauseStatus::Shorter
}

/// Returns the status of a clause under the current values. Reads the literals of the clause up to the first true one.
pub fn clause_status(parts: &SearchState, cref: ClauseRef) -> ClauseStatus
    requires holds { SearchStateInvariant parts.now }
    requires live { HasLongClause parts.now cref }
    ensures { HasClauseStatus result parts.now cref }
{
    for at in 0..parts.clauses.len(cref) {
        if !parts.assignment.lit_is_unk(parts.clauses.lit(cref, at)) {
            return clause_status_from(parts, cref, at);
        }
    }
    ClauseStatus::Whole
}
