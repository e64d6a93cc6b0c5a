//! Steps of a proof.
ghost use Rattle.std.specs.Prelude.{◌≡◌, ◌<◌, ◌≤◌, MatchOption};

use crate::{ClauseHash, Lit, Var};
use std::marker::Model;

/// Why a clause may be deleted.
#[derive(Clone, Copy, Debug, Drop, PartialEq, Eq)]
pub enum DeleteClauseProof {
    /// The clause is redundant.
    Redundant,
    /// A stronger clause replaces it.
    Simplified,
    /// A unit satisfies the clause.
    Satisfied,
}

/// A width: the number of hash bits that are significant, from 0 to 64. Contracts see the number.
#[derive(Clone, Copy, Debug, PartialEq, Eq)]
pub struct HashBits {
    bits: u32,
}

impl Model for HashBits {
    ghost use Rattle.std.specs.Prelude.{ℕ, ◌≤◌};

    ghost Value = { ℕ };

    ghost view = { λ h. h.bits };

    ghost inverse = { λ n. record { bits = n } };

    ghost invariant = { λ h. h.bits ≤ 64 };
}

impl HashBits {
    /// Returns a width of `bits` bits, or `None` if `bits` is above 64.
    pub fn new(bits: u32) -> Option<HashBits>
        ensures { MatchOption result (64 < bits) (λ h. h ≡ bits) }
    {
        if bits > 64 {
            return None;
        }
        Some(HashBits { bits })
    }

    /// Returns a width of `bits` bits.
    pub(crate) fn of_width(bits: u32) -> HashBits
        requires { bits ≤ 64 }
        ensures { result ≡ bits }
    {
        HashBits { bits }
    }

    /// Returns the number of bits.
    pub fn get(self) -> u32
        ensures value { result ≡ self }
        ensures bound { result ≤ 64 }
    {
        self.bits
    }
}

/// A step of a proof, with borrowed lists.
#[derive(Clone, Copy, Debug)]
pub enum ProofStep<'a> {
    /// Sets the solver name of a variable, which is an index in the search, or removes it if `solver` is `None`.
    SolverVarName {
        global: Var,
        solver: Option<Var>,
    },
    /// Sets the user's name of a variable, or removes the name if `user` is `None`.
    UserVarName {
        global: Var,
        user: Option<Var>,
    },
    /// Deletes a variable, which must be hidden and in no clause of two or more literals.
    DeleteVar {
        var: Var,
    },
    /// Sets the mode of a variable to sample, or to witness if `sample` is false.
    ChangeSamplingMode {
        var: Var,
        sample: bool,
    },
    /// Adds a clause of the formula.
    AddClause {
        clause: &'a [Lit],
    },
    /// Adds a clause that follows by propagation from the clauses with these hashes.
    AtClause {
        redundant: bool,
        clause: &'a [Lit],
        propagation_hashes: &'a [ClauseHash],
    },
    /// Adds unit clauses, in the order in which they were found, each with the hash of the clause that became unit.
    UnitClauses {
        units: &'a [(Lit, ClauseHash)],
    },
    /// Deletes a clause.
    DeleteClause {
        clause: &'a [Lit],
        proof: DeleteClauseProof,
    },
    /// Sets the number of hash bits that are significant.
    ChangeHashBits {
        bits: HashBits,
    },
    /// States a valuation that satisfies the formula.
    Model {
        assignment: &'a [Lit],
    },
    /// Replaces the assumptions.
    Assumptions {
        assumptions: &'a [Lit],
    },
    /// States assumptions that cannot all be true, as propagation from the clauses with these hashes shows.
    FailedAssumptions {
        failed_core: &'a [Lit],
        propagation_hashes: &'a [ClauseHash],
    },
    /// Ends the proof.
    End,
}
