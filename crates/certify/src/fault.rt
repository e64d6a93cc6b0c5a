//! Why a run is not finished.

use std::alloc::{AllocError, AllocFailed};
use thiserror::Error;

/// Why a run is not finished. In that case, the answers and the certificate may be unfinished.
#[derive(Clone, Copy, Debug, Drop, PartialEq, Eq, Error)]
pub enum RunFault {
    /// The script's reader failed, or was read 2^48 times.
    #[error("the script can't be read")]
    ScriptRead,
    #[error("the answers can't be written")]
    AnswersWrite,
    #[error("the certificate can't be written")]
    CertificateWrite,
    #[error("out of memory")]
    OutOfMemory,
    /// The clause buffer is full.
    #[error("the store of clauses is full")]
    StoreFull,
    #[error("a counter is at its end")]
    CounterEnd,
}

impl From<AllocError> for RunFault {
    ghost use Rattle.std.specs.Prelude.{◌≡◌};
    ghost use Rattle.certify.specs.declared.fault.RunFault.TheVariants.{OutOfMemory};

    ghost from_gives = { λ _ e. e ≡ OutOfMemory };

    fn from(_e: AllocError) -> RunFault {
        RunFault::OutOfMemory
    }
}

impl<T: Drop> From<AllocFailed<T>> for RunFault {
    ghost use Rattle.std.specs.Prelude.{◌≡◌};
    ghost use Rattle.certify.specs.declared.fault.RunFault.TheVariants.{OutOfMemory};

    ghost from_gives = { λ _ e. e ≡ OutOfMemory };

    fn from(_e: AllocFailed<T>) -> RunFault {
        RunFault::OutOfMemory
    }
}
