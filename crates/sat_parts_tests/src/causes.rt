//! Tests of the literals of reasons and conflicts.
ghost use Rattle.std.specs.Prelude.{◌≤◌, length};
ghost use Rattle.sat_store.specs.clause.Buffer.{IsClause, lits_at};

use sat_base::Lit;
use sat_parts::{CauseLits, Conflict, Reason};
use sat_store::{ClauseAlloc, ClauseHeader, ClauseRef, StoreError};

/// Returns the number of literals in the two parts together.
fn count_in_parts(lits: &CauseLits) -> usize {
    let (own, long) = lits.parts();
    own.len().saturating_add(long.len())
}

/// Returns `true` if the literals have the codes `codes`, by index and when counted in the two parts.
fn reads(lits: &CauseLits, codes: &[usize]) -> bool {
    if lits.len() != codes.len() || lits.is_empty() != codes.is_empty() {
        return false;
    }
    for at in 0..codes.len() {
        if lits.get(at).code() != codes[at] {
            return false;
        }
    }
    count_in_parts(lits) == codes.len()
        && lits.iter().count() == codes.len()
        && lits.iter().next().map(|lit| lit.code()) == codes.first().copied()
}

/// Returns `true` if a reason and a conflict have the literals with the codes 0, 3, 4 and 7 of a clause. The reason
/// leaves out the first literal.
fn reads_clause(clauses: &ClauseAlloc, cref: ClauseRef) -> bool
    requires clause { IsClause clauses.now cref }
    requires long { 3 ≤ length (lits_at clauses.now cref) }
{
    let reason = Reason::Long(cref);
    let conflict = Conflict::Long(cref);
    reads(&reason.lits(clauses), &[3, 4, 7]) && reads(&conflict.lits(clauses), &[0, 3, 4, 7])
}

fn long_row(clauses: &mut ClauseAlloc) -> Result<bool, StoreError> {
    let lits = [
        Lit::from_code(0),
        Lit::from_code(3),
        Lit::from_code(4),
        Lit::from_code(7),
    ];
    let cref = clauses.add_clause(ClauseHeader::new(), &lits)?;
    Ok(reads_clause(clauses, cref))
}

/// Returns `true` if a unit has no literals, and a reason and a conflict of two literals have their own.
fn short_row(clauses: &ClauseAlloc) -> bool {
    let (first, second) = (Lit::from_code(5), Lit::from_code(8));
    let (unit, binary) = (Reason::Unit, Reason::Binary([first]));
    let conflict = Conflict::Binary([first, second]);
    reads(&unit.lits(clauses), &[])
        && reads(&binary.lits(clauses), &[5])
        && reads(&conflict.lits(clauses), &[5, 8])
}

#[test]
fn reasons_and_conflicts_lend_their_literals(rt: HostRuntime) {
    let mut clauses = ClauseAlloc::new(rt.alloc());
    assert!(rt; short_row(&clauses));
    assert!(rt; long_row(&mut clauses) == Ok(true));
}
