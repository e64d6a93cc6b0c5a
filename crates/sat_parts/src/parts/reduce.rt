//! Lists the learned clauses that a reduction considers.
ghost use Rattle.std.specs.Prelude.{ℕ, ◌≡◌, ◌<◌, OnOk, map, length, slice_index_or};
ghost use Rattle.std.specs.List.{filter};
ghost use Rattle.std.specs.List.Sorted.{IsPermutation, IsNonDecreasingBy};
ghost use Rattle.sat_store.specs.clause.Buffer.{IsClause};
ghost use Rattle.sat_parts.specs.clause.Db.{is_live_in_tier};
ghost use Rattle.sat_parts.specs.clause.Orders.{AreDistinct};
ghost use Rattle.sat_parts.specs.parts.Whole.{SearchStateInvariant, HasLongClauses};
ghost use Rattle.sat_parts.specs.parts.Reducing.{clause_rank, with_rank};

use crate::parts::SearchState;
use sat_store::{ClauseAlloc, ClauseRef, Tier};
use std::alloc::{AllocError, Global};

/// Returns `true` if a clause is live and in tier Local.
fn is_local(clauses: &ClauseAlloc, cref: ClauseRef) -> bool
    requires { IsClause clauses.now cref }
    ensures { result ≡ is_live_in_tier clauses.now Tier.Local cref }
{
    let header = clauses.header(cref);
    if header.deleted() {
        return false;
    }
    header.tier().index() == 3
}

/// Replaces the contents of `list` with the live clauses in tier Local, in the order in which they were added.
fn find_locals(parts: &SearchState, list: &mut Vec<ClauseRef>) -> Result<(), AllocError>
    requires holds { SearchStateInvariant parts.now }
    ensures { OnOk result (list.new.items ≡ filter (is_live_in_tier parts.now.clauses Tier.Local) parts.now.db.refs) }
{
    list.clear();
    for at in 0..parts.db.len() {
        let cref = parts.db.cref(at);
        if is_local(&parts.clauses, cref) {
            list.push(cref)?;
        }
    }
    Ok(())
}

/// Returns the rank of a clause. Clauses are ranked by activity, and then by offset.
fn rank_of(clauses: &ClauseAlloc, cref: ClauseRef) -> u128
    requires { IsClause clauses.now cref }
    ensures { result ≡ clause_rank clauses.now cref }
{
    u128::from(clauses.header(cref).activity()) * 18446744073709551616 + cref.offset() as u128
}

/// Replaces the contents of `ranks` with the clauses in `list`, each with its rank.
fn rank_all(
    clauses: &ClauseAlloc,
    list: &[ClauseRef],
    ranks: &mut Vec<(u128, ClauseRef)>,
) -> Result<(), AllocError>
    requires { (k : ℕ) → k < length list.now → IsClause clauses.now (slice_index_or list.now k 0) }
    ensures { OnOk result (ranks.new.items ≡ map (with_rank clauses.now) list.now) }
{
    ranks.clear();
    for cref in list {
        ranks.push((rank_of(clauses, *cref), *cref))?;
    }
    Ok(())
}

/// Replaces the contents of `list` with the clauses in `ranks`, in the same order.
fn take_clauses(ranks: &[(u128, ClauseRef)], list: &mut Vec<ClauseRef>) -> Result<(), AllocError>
    ensures { OnOk result (list.new.items ≡ map (λ x. x.1) ranks.now) }
{
    list.clear();
    for pair in ranks {
        list.push(pair.1)?;
    }
    Ok(())
}

/// Replaces the contents of `list` with the live clauses in tier Local, lowest activity first. Among clauses of equal
/// activity, the older clause comes first.
pub fn list_locals(
    alloc: Global,
    parts: &SearchState,
    list: &mut Vec<ClauseRef>,
) -> Result<(), AllocError>
    requires holds { SearchStateInvariant parts.now }
    ensures locals { OnOk result (IsPermutation (filter (is_live_in_tier parts.now.clauses Tier.Local) parts.now.db.refs)
        list.new.items) }
    ensures rising { OnOk result (IsNonDecreasingBy (clause_rank parts.now.clauses) list.new.items) }
    ensures once { OnOk result (AreDistinct list.new.items) }
    ensures live { OnOk result (HasLongClauses parts.now list.new.items) }
{
    find_locals(parts, list)?;
    let mut ranks = Vec::new(alloc);
    rank_all(&parts.clauses, list, &mut ranks)?;
    ranks.sort_unstable_by_key(|pair| pair.0);
    take_clauses(&ranks, list)
}
