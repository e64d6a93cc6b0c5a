//! Maps literals of the search to literals over proof variables, and computes the hashes of clauses.
ghost use Rattle.std.specs.Prelude.{ℕ, ◌≡◌, ◌<◌, ◌≤◌, OnOk, length, map};
ghost use Rattle.sat_base.specs.values.Literals.{variable};
ghost use Rattle.sat_base.specs.values.Hashes.{hash_of};
ghost use Rattle.sat_store.specs.clause.Buffer.{IsClause, lits_at};
ghost use Rattle.sat_parts.specs.clause.Glue.{VariablesBelow};
ghost use Rattle.sat_parts.specs.prop.State.{node};
ghost use Rattle.sat_solver.specs.session.LiveClauses.{with_var};
ghost use Rattle.sat_solver.specs.analyze_conflict.Derivation.{clause_of};
ghost use Rattle.sat_parts.specs.parts.Whole.{state};
ghost use Rattle.sat_solver.specs.session.TrailUnits.{written_units};
ghost use Rattle.sat_solver.specs.session.WritingUnits.{IsReadyForUnits};
ghost use Rattle.sat_solver.specs.session.Naming.{global_of_index, ReasonsAreStored, ReasonsHaveLiterals};
ghost use Rattle.sat_solver.specs.session.MatchingLaws.{named_hashes};

use sat_base::{ClauseHash, Lit, Var, lit_hash};
use sat_parts::{CauseLits, Conflict, Reason, SearchState};
use sat_store::Lits;
use std::alloc::AllocError;

/// Replaces the content of `mapped` with the literals `lits` over proof variables.
pub fn map_lits(globals: &[Var], lits: &[Lit], mapped: &mut Vec<Lit>) -> Result<(), AllocError>
    requires { VariablesBelow lits.now (length globals.now) }
    ensures { OnOk result (mapped.new.items ≡ map (with_var (global_of_index globals.now)) lits.now) }
{
    mapped.clear();
    for lit in lits {
        let var = globals[lit.index()];
        mapped.push(Lit::from_var(var, lit.is_positive()))?;
    }
    Ok(())
}

/// Returns the hash of the clause `lits`.
fn own_hash(lits: &[Lit]) -> ClauseHash
    ensures { result ≡ hash_of lits.now }
{
    let mut hash: ClauseHash = 0;
    for lit in lits {
        hash ^= lit_hash(*lit);
    }
    hash
}

/// Returns the hash of a long clause.
fn long_hash(lits: &Lits<'_>) -> ClauseHash
    ensures { result ≡ hash_of lits.now }
{
    let mut hash: ClauseHash = 0;
    for at in 0..lits.len() {
        hash ^= lit_hash(lits.get(at));
    }
    hash
}

/// Returns the hash of the literals of a reason or of a conflict.
fn causes_hash(lits: &CauseLits) -> ClauseHash
    ensures { result ≡ hash_of lits.now }
{
    let (own, long) = lits.parts();
    own_hash(own) ^ long_hash(long)
}

/// Returns the hash of the clause that implies `lit`.
fn reason_hash(parts: &SearchState, lit: Lit) -> ClauseHash
    requires there { variable lit < length parts.now.graph }
    requires clause { (o : ℕ) → (node (state parts.now) lit).reason ≡ Reason.Long o → IsClause parts.now.clauses o }
    requires some { (o : ℕ) → (node (state parts.now) lit).reason ≡ Reason.Long o
        → 0 < length (lits_at parts.now.clauses o) }
    ensures { result ≡ hash_of (clause_of parts.now.clauses (state parts.now) lit) }
{
    let reason = parts.graph.reason(lit.var());
    lit_hash(lit) ^ causes_hash(&reason.lits(&parts.clauses))
}

/// Replaces the content of `hashes` with the hashes of the clauses that imply the literals `used`, in order.
pub fn name_reasons(
    parts: &SearchState,
    used: &[Lit],
    hashes: &mut Vec<ClauseHash>,
) -> Result<(), AllocError>
    requires there { VariablesBelow used.now (length parts.now.graph) }
    requires clause { ReasonsAreStored parts.now.clauses (state parts.now) used.now }
    requires some { ReasonsHaveLiterals parts.now.clauses (state parts.now) used.now }
    ensures { OnOk result (hashes.new.items ≡ map (λ l. hash_of (clause_of parts.now.clauses (state parts.now) l))
        used.now) }
{
    hashes.clear();
    for lit in used {
        hashes.push(reason_hash(parts, *lit))?;
    }
    Ok(())
}

/// Replaces the content of `hashes` with the hashes of the clauses that imply the literals `used`, followed by the hash
/// of the falsified clause.
pub fn name_clauses(
    parts: &SearchState,
    used: &[Lit],
    conflict: &Conflict,
    hashes: &mut Vec<ClauseHash>,
) -> Result<(), AllocError>
    requires there { VariablesBelow used.now (length parts.now.graph) }
    requires clause { ReasonsAreStored parts.now.clauses (state parts.now) used.now }
    requires some { ReasonsHaveLiterals parts.now.clauses (state parts.now) used.now }
    requires conflict { (o : ℕ) → conflict.now ≡ Conflict.Long o → IsClause parts.now.clauses o }
    ensures { OnOk result (hashes.new.items ≡ named_hashes parts.now.clauses (state parts.now) used.now conflict.now) }
{
    name_reasons(parts, used, hashes)?;
    hashes.push(causes_hash(&conflict.lits(&parts.clauses)))?;
    Ok(())
}

/// Returns the literal over proof variables for `lit`, a literal of the search.
fn map_lit(globals: &[Var], lit: Lit) -> Lit
    requires { variable lit < length globals.now }
    ensures { result ≡ with_var (global_of_index globals.now) lit }
{
    Lit::from_var(globals[lit.index()], lit.is_positive())
}

/// Returns the unit `lit` over proof variables, with the hash of the clause that implies it.
fn unit_of(parts: &SearchState, globals: &[Var], lit: Lit) -> (Lit, ClauseHash)
    requires there { variable lit < length parts.now.graph }
    requires name { variable lit < length globals.now }
    requires clause { (o : ℕ) → (node (state parts.now) lit).reason ≡ Reason.Long o → IsClause parts.now.clauses o }
    requires some { (o : ℕ) → (node (state parts.now) lit).reason ≡ Reason.Long o
        → 0 < length (lits_at parts.now.clauses o) }
    ensures { result ≡ (
      with_var (global_of_index globals.now) lit,
      hash_of
          (clause_of parts.now.clauses (state parts.now) lit),
    ) }
{
    let hash = reason_hash(parts, lit);
    (map_lit(globals, lit), hash)
}

/// Replaces the content of `units` with the literals on the trail whose reasons are clauses, over proof variables. Each
/// unit comes with the hash of the clause that implies it.
pub fn collect_units(
    parts: &SearchState,
    globals: &[Var],
    units: &mut Vec<(Lit, ClauseHash)>,
) -> Result<(), AllocError>
    requires orderly { IsReadyForUnits parts.now }
    requires names { length parts.now.assignment.current ≤ length globals.now }
    ensures { OnOk result (units.new.items ≡ written_units parts.now.clauses (state parts.now) 64
        (global_of_index globals.now) parts.now.trail.lits) }
{
    units.clear();
    for lit in parts.trail.trail() {
        if parts.graph.reason(lit.var()).is_unit() {
            continue;
        }
        units.push(unit_of(parts, globals, *lit))?;
    }
    Ok(())
}
