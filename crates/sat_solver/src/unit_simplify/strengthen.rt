//! Removes the false literals of long clauses.
ghost use Rattle.std.specs.Prelude.{ℕ, ◌≡◌, ◌<◌, ◌≤◌, OnOk, IfOk, length};
ghost use Rattle.sat_parts.specs.clause.Stored.{lit_of, size_of};
ghost use Rattle.sat_parts.specs.prop.Values.{IsUnassignedLit};
ghost use Rattle.sat_solver.specs.proof.ProofView.{HasAllowedSteps, session_of};
ghost use Rattle.sat_parts.specs.parts.Whole.{SearchStateInvariant, HasLongClause};
ghost use Rattle.sat_solver.specs.cdcl.Joint.{SearchInvariant};
ghost use Rattle.sat_solver.specs.unit_simplify.Strengthening.{MovesOpenLitsFirst, StrengtheningEffect};
ghost use Rattle.sat_solver.specs.unit_simplify.Strengthening.{PreparesStrengthening};
ghost use Rattle.sat_solver.specs.unit_simplify.EmptyTrail.{HasEmptyTrail, StrengthensOrFails};
ghost use Rattle.sat_solver.specs.unit_simplify.ClauseStatus.{HasTrue, HasFalse};

use crate::cdcl::fault::Fault;
use crate::clause::reduce::map_clause;
use crate::context::Search;
use crate::proof::Proof;
use crate::proof::map_step::name_clauses;
use crate::unit_simplify::steps::write_strengthening;
use sat_base::{CountedWrite, Lit};
use sat_checker::ProofProcessor;
use sat_parts::parts::clauses::{delete_long, shorten, swap_unwatched};
use sat_parts::parts::load::load_binary;
use sat_parts::{Conflict, SearchState};
use sat_store::ClauseRef;
use std::alloc::AllocError;

/// Moves the literals of a clause that have no value to the beginning of the clause, in order. Returns their number. No
/// literal may be true, and the first two literals must have no value.
fn gather_open(parts: &mut SearchState, cref: ClauseRef) -> usize
    requires holds { SearchStateInvariant parts.old }
    requires live { HasLongClause parts.old cref }
    requires none { HasTrue parts.old cref → ⊥ }
    requires front { (k : ℕ) → k < 2 → IsUnassignedLit parts.old.assignment.current (lit_of parts.old.clauses cref k) }
    ensures gathers { MovesOpenLitsFirst parts.old parts.new cref result (size_of parts.old.clauses cref) }
    ensures some { 2 ≤ result }
    ensures within { result ≤ size_of parts.old.clauses cref }
{
    let mut kept = 2;
    for at in 2..parts.clauses.len(cref) {
        if parts.assignment.lit_is_false(parts.clauses.lit(cref, at)) {
            continue;
        }
        swap_unwatched(parts, cref, kept, at);
        kept += 1;
    }
    kept
}

/// Moves the literals of a clause that have no value to the beginning of the clause, and fills `search.scratch` and
/// `part` for the steps that strengthen the clause. Returns the number of these literals.
fn prepare_strengthening(
    search: &mut Search,
    cref: ClauseRef,
    part: &mut Vec<Lit>,
) -> Result<usize, AllocError>
    requires holds { SearchStateInvariant search.old.parts }
    requires flat { HasEmptyTrail search.old.parts }
    requires names { length search.old.parts.assignment.current ≤ length search.old.globals.items }
    requires live { HasLongClause search.old.parts cref }
    requires none { HasTrue search.old.parts cref → ⊥ }
    ensures same { search.new ≡ record search.old { parts = search.new.parts; scratch = search.new.scratch } }
    ensures named { IfOk result (λ len. PreparesStrengthening search.old search.new part.new.items cref len) }
{
    let scratch = &mut search.scratch;
    map_clause(&search.parts, &search.globals, cref, &mut scratch.clause)?;
    name_clauses(
        &search.parts,
        &[],
        &Conflict::Long(cref),
        &mut scratch.hashes,
    )?;
    let len = gather_open(&mut search.parts, cref);
    map_clause(&search.parts, &search.globals, cref, part)?;
    part.truncate(len);
    Ok(len)
}

/// Replaces a clause with its first `len` literals.
fn replace(parts: &mut SearchState, cref: ClauseRef, len: usize) -> Result<(), AllocError>
    requires holds { SearchStateInvariant parts.old }
    requires flat { HasEmptyTrail parts.old }
    requires live { HasLongClause parts.old cref }
    requires some { 2 ≤ len }
    requires within { len ≤ size_of parts.old.clauses cref }
    requires front { (k : ℕ) → k < 2 → IsUnassignedLit parts.old.assignment.current (lit_of parts.old.clauses cref k) }
    ensures { OnOk result (StrengtheningEffect parts.old parts.new cref len) }
{
    if len > 2 {
        shorten(parts, cref, len);
        return Ok(());
    }
    let pair = [parts.clauses.lit(cref, 0), parts.clauses.lit(cref, 1)];
    load_binary(parts, &pair)?;
    delete_long(parts, cref);
    Ok(())
}

/// Removes the false literals of a clause, and writes the steps. Some literals of the clause must be false, and none
/// may be true.
pub fn strengthen_clause<W: CountedWrite + Drop, P: ProofProcessor>(
    proof: &mut Proof<W, P>,
    search: &mut Search,
    cref: ClauseRef,
    part: &mut Vec<Lit>,
) -> Result<(), Fault>
    requires keeps { HasAllowedSteps proof.old }
    requires search { SearchInvariant (session_of proof.old) search.old }
    requires flat { HasEmptyTrail search.old.parts }
    requires live { HasLongClause search.old.parts cref }
    requires none { HasTrue search.old.parts cref → ⊥ }
    requires some { HasFalse search.old.parts cref }
    ensures { StrengthensOrFails W.seen result proof.old proof.new search.old search.new cref }
{
    let len = prepare_strengthening(search, cref, part)?;
    let redundant = search.parts.clauses.header(cref).redundant();
    replace(&mut search.parts, cref, len)?;
    write_strengthening(proof, &search.scratch, part, redundant)
}
