//! Laws about the hashes of clauses.
ghost use Rattle.std.specs.List.Sorted.{IsPermutation};
ghost use Rattle.std.specs.Prelude.{◌≡◌, ℕ, List};
ghost use Rattle.sat_base.specs.values.Hashes.{hash_of};

/// States that a clause's hash doesn't depend on the order of its literals.
pub fn permuted_clauses_hash_alike()
    ensures { (ls ms : List ℕ) → IsPermutation ls ms → hash_of ls ≡ hash_of ms }
{}
