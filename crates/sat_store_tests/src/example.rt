//! The caller that `CALLING.md` of `sat_store` shows.
ghost use Rattle.std.specs.Prelude.{◌≡◌, ◌<◌, ◌≤◌, ◌^◌, IfOk, length, slice_index};

use sat_base::Lit;
use sat_store::{ClauseAlloc, ClauseHeader, StoreError};
use std::alloc::Global;

/// Stores a clause, swaps its first and its third literal, and returns the first one.
fn third_first(alloc: Global, lits: &[Lit]) -> Result<Lit, StoreError>
    requires long { 3 ≤ length lits.now }
    requires fits { length lits.now < 2 ^ 32 }
    ensures { IfOk result (λ lit. lit ≡ slice_index lits.now 2) }
{
    let mut buffer = ClauseAlloc::new(alloc);
    let cref = buffer.add_clause(ClauseHeader::new(), lits)?;
    buffer.swap_lits(cref, 0, 2);
    Ok(buffer.lit(cref, 0))
}

#[test]
fn third_literal_comes_first(rt: HostRuntime) {
    let lits = [
        Lit::from_index(0, true),
        Lit::from_index(1, false),
        Lit::from_index(2, true),
    ];
    assert!(rt; third_first(rt.alloc(), &lits) == Ok(Lit::from_index(2, true)));
}
