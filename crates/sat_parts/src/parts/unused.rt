//! Finds the variables that occur in clauses.
ghost use Rattle.std.specs.Prelude.{ℕ, ◌≡◌, ◌<◌, OnOk, true, false, length, slice_index_or};
ghost use Rattle.sat_base.specs.values.Literals.{variable};
ghost use Rattle.sat_parts.specs.parts.Whole.{SearchStateInvariant, InNoClause};
ghost use Rattle.sat_parts.specs.parts.Using.{MarksExactly, OccursInFirstLits, OccursInLongClauses};
ghost use Rattle.sat_parts.specs.parts.Using.{OccursInBinaryClauses};
ghost use Rattle.sat_parts.specs.clause.Glue.{VariablesBelow};

use crate::parts::SearchState;
use sat_base::Lit;
use sat_store::Lits;
use std::alloc::AllocError;

/// Marks the variable of a literal.
#[inline(always)] // called for each literal that simplification goes through
fn mark_lit(used: &mut [bool], lit: Lit)
    requires { variable lit < length used.old }
    ensures { MarksExactly used.old used.new (λ v. variable lit ≡ v) }
{
    used[lit.index()] = true;
}

/// Marks the variables of literals.
fn mark_lits(used: &mut [bool], lits: &[Lit])
    requires { VariablesBelow lits.now (length used.old) }
    ensures { MarksExactly used.old used.new (OccursInFirstLits lits.now (length lits.now)) }
{
    for at in 0..lits.len() {
        mark_lit(used, lits[at]);
    }
}

/// Marks the variables of a clause, given its literals.
#[inline(always)] // called for each clause that simplification goes through
fn mark_clause(used: &mut [bool], lits: &Lits<'_>)
    requires { VariablesBelow lits.now (length used.old) }
    ensures { MarksExactly used.old used.new (OccursInFirstLits lits.now (length lits.now)) }
{
    for at in 0..lits.len() {
        mark_lit(used, lits.get(at));
    }
}

/// Marks the variables of the live long clauses.
fn mark_long(used: &mut [bool], parts: &SearchState)
    requires holds { SearchStateInvariant parts.now }
    requires size { length used.old ≡ length parts.now.assignment.current }
    ensures { MarksExactly used.old used.new
        (OccursInLongClauses parts.now.clauses parts.now.db.refs (length parts.now.db.refs)) }
{
    for at in 0..parts.db.len() {
        let cref = parts.db.cref(at);
        if parts.clauses.header(cref).deleted() {
            continue;
        }
        mark_clause(used, &parts.clauses.clause(cref).lits());
    }
}

/// Marks the variables of the binary clauses.
fn mark_binary(used: &mut [bool], parts: &SearchState)
    requires holds { SearchStateInvariant parts.now }
    requires size { length used.old ≡ length parts.now.assignment.current }
    ensures { MarksExactly used.old used.new
        (OccursInBinaryClauses parts.now.binary.implied (length parts.now.binary.implied)) }
{
    for code in 0..2 * used.len() {
        let lit = Lit::from_code(code);
        let implied = parts.binary.implied(lit);
        if implied.is_empty() {
            continue;
        }
        mark_lit(used, lit);
        mark_lits(used, implied);
    }
}

/// Marks the variables of all clauses. No variable may be marked.
fn mark_all(used: &mut [bool], parts: &SearchState)
    requires holds { SearchStateInvariant parts.now }
    requires size { length used.old ≡ length parts.now.assignment.current }
    requires none { (v : ℕ) → slice_index_or used.old v false ≡ false }
    ensures size { length used.new ≡ length used.old }
    ensures unused { (v : ℕ) → slice_index_or used.new v false ≡ false → InNoClause parts.now v }
    ensures others { (v : ℕ) → InNoClause parts.now v → slice_index_or used.new v false ≡ false }
{
    mark_long(used, parts);
    mark_binary(used, parts);
}

/// Replaces the contents of `used` with a flag for every variable, which says whether the variable occurs in a clause.
pub fn mark_used(used: &mut Vec<bool>, parts: &SearchState) -> Result<(), AllocError>
    requires holds { SearchStateInvariant parts.now }
    ensures size { OnOk result (length used.new.items ≡ length parts.now.assignment.current) }
    ensures unused { OnOk result ((v : ℕ) → slice_index_or used.new.items v false ≡ false → InNoClause parts.now v) }
    ensures others { OnOk result ((v : ℕ) → InNoClause parts.now v → slice_index_or used.new.items v false ≡ false) }
{
    used.clear();
    used.resize(parts.assignment.assignment().len(), false)?;
    mark_all(used, parts);
    Ok(())
}
