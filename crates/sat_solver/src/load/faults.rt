//! Converts errors from operations on names to the faults that the solver reports.

use crate::cdcl::fault::{Fault, FaultKind};
use crate::variables::error::NameError;

impl From<NameError> for Fault {
    ghost use Rattle.std.specs.Prelude.{◌≡◌};
    ghost use Rattle.sat_solver.specs.load.Faults.{error_of_name_call};

    ghost from_gives = { λ n e. e ≡ error_of_name_call n };

    fn from(error: NameError) -> Fault {
        match error {
            NameError::VariableLimit => Fault::of(FaultKind::VariableLimit),
            NameError::OutOfMemory => Fault::of(FaultKind::OutOfMemory),
            NameError::Write(kept) => Fault::of(FaultKind::Write(kept)),
            NameError::Check(fault) => Fault::from(fault),
        }
    }
}
