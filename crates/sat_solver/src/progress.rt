//! The progress of a solver.

/// A solver's counts of rounds, restarts, variables and clauses. The other counts saturate at 2^64-1; no round runs
/// once `conflicts` is 2^64-1.
#[derive(Clone, Copy, Debug, Drop, PartialEq, Eq)]
pub struct Progress {
    /// Rounds of search so far, over all calls to `solve`. A round ends in a conflict or an answer.
    pub conflicts: u64,
    /// Restarts so far.
    pub restarts: u64,
    /// Variables that have an index in the search and no value.
    pub vars: u64,
    /// Clauses with two literals.
    pub binary: u64,
    /// Clauses of the formula with three or more literals.
    pub irred: u64,
    /// Learned clauses that no reduction deletes.
    pub core: u64,
    /// Learned clauses that no reduction deletes as long as they are used.
    pub mid: u64,
    /// Learned clauses, up to half of which are deleted by each reduction.
    pub local: u64,
}
