//! The hashes by which a proof step names clauses.
ghost use Rattle.std.specs.Prelude.{◌≡◌};
ghost use Rattle.sat_base.specs.values.Hashes.{literal_hash, hash_of};

use crate::Lit;

/// The hash of a clause: the exclusive or of the hashes of its literals. Their order doesn't matter.
pub type ClauseHash = u64;

/// The odd number by which a literal's code plus one is multiplied: 2^64 divided by the golden ratio, rounded down.
const MULTIPLIER: u64 = 0x9e37_79b9_7f4a_7c15;

/// Returns the hash of a literal: its code plus one, times `MULTIPLIER`, modulo 2^64.
pub fn lit_hash(lit: Lit) -> ClauseHash
    ensures { result ≡ literal_hash lit }
{
    (lit.code() as u64 + 1).wrapping_mul(MULTIPLIER)
}

#[tactic(auto, using(crate::proofs::lemmas::values::HashLemmas::hash_next))]
/// Returns the hash of a clause: the exclusive or of the hashes of its literals, or 0 if there are none.
pub fn clause_hash(lits: &[Lit]) -> ClauseHash
    ensures { result ≡ hash_of lits.now }
{
    let mut hash = 0;
    for lit in lits {
        hash ^= lit_hash(*lit);
    }
    hash
}
