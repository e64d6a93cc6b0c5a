//! The caller that `CALLING.md` of `sat_base` shows.
ghost use Rattle.std.specs.Prelude.{◌≡◌, IfOk, length};
ghost use Rattle.sat_base.specs.device.Device.{GaveEnough};
ghost use Rattle.sat_base.specs.dimacs.Dimacs.{dimacs};

use sat_base::{Counted, CountedRead, DimacsError, DimacsParser};
use std::alloc::Global;

/// Returns the number of clauses of a formula in DIMACS CNF.
pub fn clause_count<R: CountedRead>(alloc: Global, reader: &mut R) -> Result<usize, DimacsError>
    ensures { IfOk result (λ count. GaveEnough (R.seen reader.old) (R.seen reader.new)
        (λ text. count ≡ length (dimacs text).clauses)) }
{
    let formula = DimacsParser::parse(alloc, reader)?;
    Ok(formula.len())
}

#[test]
fn clauses_are_counted(rt: HostRuntime) {
    let text: &[u8] = b"c two clauses\np cnf 3 2\n1 -3 0\n2 0\n";
    assert!(rt; clause_count(rt.alloc(), &mut Counted::new(text)) == Ok(2));
    let cut: &[u8] = b"1 0\n2 x";
    let fault = Err(DimacsError::Malformed { line: 2 });
    assert!(rt; clause_count(rt.alloc(), &mut Counted::new(cut)) == fault);
}
