//! The error type of `convert`.

use sat_checker::CheckerError;
use thiserror::Error;

/// Why a certificate was not converted. The text that has been written so far is incomplete.
#[derive(Debug, Drop, Error)]
pub enum HintError {
    /// The checker refused the certificate, for the given reason.
    #[error("the certificate is refused: {0}")]
    Refused(CheckerError),
    /// This error is never returned.
    #[error("the certificate deletes a variable")]
    HasDeleteVar,
    /// A read failed, or 2^48 reads were not enough.
    #[error("a read failed")]
    Read,
    /// A write failed.
    #[error("a write failed")]
    Write,
    /// Memory ran out.
    #[error("out of memory")]
    OutOfMemory,
}
