//! Verdicts on hint texts, and errors from checking them.

use std::alloc::{AllocError, AllocFailed};
use thiserror::Error;

/// Why a line is at fault. If several reasons apply, the one listed first is reported.
#[derive(Clone, Copy, Debug, Drop, PartialEq, Eq)]
pub enum HintWhy {
    /// The line is malformed, or the text ends before the line's LF.
    Syntax,
    /// The line gives a clause an ID that is not above the IDs of all earlier clauses.
    IdOrder,
    /// The line names an ID under which no clause is present.
    UnknownId,
    /// A clause that the line names, other than the last one, is not unit in turn.
    NotUnit,
    /// The last clause that the line names is not falsified, or the line names no clause.
    NotFalsified,
    /// The variable that the line makes new is in a present clause of two or more literals.
    VarInUse,
}

/// The verdict on a hint text.
#[derive(Clone, Copy, Debug, Drop, PartialEq, Eq)]
pub enum HintVerdict {
    /// The text is a derivation. The fields say whether it derives an empty clause, and how many cores and lines it
    /// has. Both numbers saturate at 2^64-1.
    Proved { empty: bool, cores: u64, lines: u64 },
    /// The text is not a derivation. The fields are the number of the first line at fault, counted from 1 and
    /// saturating at 2^64-1, and the reason for the fault.
    Bad { line: u64, why: HintWhy },
}

/// Why a hint text was not checked to its end.
#[derive(Clone, Copy, Debug, Drop, PartialEq, Eq, Error)]
pub enum HintFault {
    /// A read failed, or 2^48 reads were not enough.
    #[error("a read failed")]
    Read,
    /// Memory ran out.
    #[error("out of memory")]
    OutOfMemory,
}

impl From<AllocError> for HintFault {
    ghost use Rattle.std.specs.Prelude.{◌≡◌};
    ghost use Rattle.sat_hints.specs.declared.answer.HintFault.TheVariants.{OutOfMemory};

    ghost from_gives = { λ _ e. e ≡ OutOfMemory };

    fn from(_e: AllocError) -> HintFault {
        HintFault::OutOfMemory
    }
}
