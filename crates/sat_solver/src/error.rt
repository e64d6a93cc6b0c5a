//! The errors of a solver.
ghost use Rattle.std.specs.Prelude.{◌≡◌};
ghost use Rattle.sat_solver.specs.Recovery.{is_recoverable};

use std::alloc::AllocError;
use std::io;
use thiserror::Error;

/// Why a call to a solver failed.
///
/// After an error that is not recoverable, every later call that can return an error returns `HasFailed`. The only
/// exception is an `OutOfMemory` that `model` returned, after which the solver can still be used.
#[derive(Debug, Drop, Error)]
pub enum SolverError {
    /// The rounds that the parameters allow for one `solve` are exhausted, or the total number of rounds has
    /// reached 2^64-1.
    #[error("The solver was interrupted")]
    Interrupted,
    /// A listener returned a fault.
    #[error("Error in proof processor: {cause}")]
    ProofProcessorError { cause: anyhow::Error },
    /// A call to the proof's target failed.
    #[error("Error writing proof file: {cause}")]
    ProofIoError { cause: io::Error },
    /// Memory could not be allocated.
    #[error("out of memory")]
    OutOfMemory,
    /// A clause or an assumption contains a name whose mode is witness.
    #[error("a clause or an assumption has a witness variable")]
    WitnessVariable,
    /// The name is assumed, so it cannot be hidden, and its mode cannot be set.
    #[error("an assumed variable can't change its mode")]
    AssumedVariable,
    /// A proof cannot be opened, and a checker or a listener cannot be added, after a clause, a name, assumptions or an
    /// ask. A proof also cannot be opened while another is open.
    #[error("a proof can't begin once the solver was used")]
    TooLate,
    /// A DRAT proof cannot contain assumptions, or clauses that were added after the first `solve`.
    #[error("the proof format has no assumptions and no later clauses")]
    NotInDrat,
    /// The clause buffer has more than 2^32-1 words, so no more clauses can be added to it.
    #[error("the store of clauses is full")]
    StoreFull,
    /// There are too few variables for the names that would be introduced (at most 2^28 can be in use), or a number in
    /// a formula's text is above that limit.
    #[error("a variable is past the limit")]
    VariableLimit,
    /// The solver's own checker has no id left, or the count of one of its clauses has reached the maximum.
    #[error("a counter is at its end")]
    CounterEnd,
    /// An earlier call returned an error that is not recoverable.
    #[error("the solver has failed before")]
    HasFailed,
    /// A read of the formula's text failed, or the text has not ended after 2^48 reads.
    #[error("the formula can't be read")]
    Read,
    /// The formula's text is malformed.
    #[error("the formula's text is malformed")]
    Malformed,
    /// A parameter is out of range.
    #[error("a parameter is out of its range")]
    OutOfRange,
}

impl SolverError {
    /// Returns `true` if the solver can still be used after this error, whichever call returned it. Returns `false` for
    /// `OutOfMemory`, although the solver can still be used if `model` returned it.
    pub fn is_recoverable(&self) -> bool
        ensures { result ≡ is_recoverable self.now }
    {
        match self {
            SolverError::Interrupted => true,
            SolverError::WitnessVariable => true,
            SolverError::AssumedVariable => true,
            SolverError::TooLate => true,
            SolverError::NotInDrat => true,
            SolverError::VariableLimit => true,
            SolverError::Read => true,
            SolverError::Malformed => true,
            SolverError::OutOfRange => true,
            SolverError::ProofProcessorError { .. } => false,
            SolverError::ProofIoError { .. } => false,
            SolverError::OutOfMemory => false,
            SolverError::StoreFull => false,
            SolverError::CounterEnd => false,
            SolverError::HasFailed => false,
        }
    }
}

impl From<AllocError> for SolverError {
    ghost use Rattle.std.specs.Prelude.{◌≡◌};
    ghost use Rattle.sat_solver.specs.declared.error.SolverError.TheVariants.{OutOfMemory};

    ghost from_gives = { λ _ e. e ≡ OutOfMemory };

    fn from(_e: AllocError) -> SolverError {
        SolverError::OutOfMemory
    }
}
