//! The hash of a stored clause, which only contracts see. It is zero-sized: at run time, the hash is in the index.
ghost use Rattle.std.specs.Prelude.{◌≡◌, ℕ};
ghost use Rattle.std.specs.Borrow.{ftrue};

use sat_base::ClauseHash;
use std::marker::Model;

/// The hash under which a clause is filed.
#[derive(Drop)]
pub(crate) struct FiledHash {
    pub ghost hash: { ℕ },
}

impl Model for FiledHash {
    ghost also_owns = { λ _. ftrue };
}

impl FiledHash {
    /// Creates a value that represents the hash `_hash`.
    pub(crate) fn new(_hash: ClauseHash) -> FiledHash
        ensures { result.hash ≡ _hash }
    {
        FiledHash {}
    }

    /// Creates a value that represents the same hash as `self`.
    pub(crate) fn same(&self) -> FiledHash
        ensures { result.hash ≡ self.now.hash }
    {
        FiledHash {}
    }
}
