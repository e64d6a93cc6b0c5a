//! Why the program failed.
ghost use Rattle.std.specs.Prelude.{◌≡◌};
ghost use Rattle.certify.specs.program.Printing.{confirm_fault_text, fault_text, hints_fault_text, run_fault_text};

use crate::fault::RunFault;
use crate::verdict::ConfirmFault;
use sat_hints::HintFault;
use std::alloc::AllocError;
use std::io;
use thiserror::Error;

/// Why the program failed.
#[derive(Clone, Copy, Debug, Drop, Error)]
pub(super) enum ProgramFault {
    #[error("{0}")]
    Run(RunFault),
    #[error("{0}")]
    Confirm(ConfirmFault),
    #[error("{0}")]
    Hints(HintCallFault),
    /// Standard input can't be read. There is no error after 2^48 reads.
    #[error("standard input can't be read")]
    Input(Option<io::Error>),
    #[error("standard output can't be written")]
    Output(io::Error),
}

/// Why a hint text was not written or checked.
#[derive(Clone, Copy, Debug, Drop, Error)]
pub(super) enum HintCallFault {
    /// The certificate or the hint text can't be read.
    #[error("a read failed")]
    Read,
    /// The hint text can't be written.
    #[error("a write failed")]
    Write,
    #[error("out of memory")]
    OutOfMemory,
}

impl ProgramFault {
    /// Returns the name of the fault, as it is written to standard error.
    pub(super) fn name(&self) -> &'static str
        ensures { result.now ≡ fault_text self.now }
    {
        match *self {
            ProgramFault::Run(fault) => run_fault_name(fault),
            ProgramFault::Confirm(fault) => confirm_fault_name(fault),
            ProgramFault::Hints(fault) => hints_fault_name(fault),
            ProgramFault::Input(_) => run_fault_name(RunFault::ScriptRead),
            ProgramFault::Output(_) => run_fault_name(RunFault::AnswersWrite),
        }
    }
}

/// Returns the name of the variant.
fn run_fault_name(fault: RunFault) -> &'static str
    ensures { result.now ≡ run_fault_text fault }
{
    match fault {
        RunFault::ScriptRead => "ScriptRead",
        RunFault::AnswersWrite => "AnswersWrite",
        RunFault::CertificateWrite => "CertificateWrite",
        RunFault::OutOfMemory => "OutOfMemory",
        RunFault::StoreFull => "StoreFull",
        RunFault::CounterEnd => "CounterEnd",
    }
}

/// Returns the name of the variant.
fn confirm_fault_name(fault: ConfirmFault) -> &'static str
    ensures { result.now ≡ confirm_fault_text fault }
{
    match fault {
        ConfirmFault::ScriptRead => "ScriptRead",
        ConfirmFault::AnswersRead => "AnswersRead",
        ConfirmFault::CertificateRead => "CertificateRead",
        ConfirmFault::OutOfMemory => "OutOfMemory",
        ConfirmFault::CounterEnd => "CounterEnd",
    }
}

/// Returns the name of the variant.
fn hints_fault_name(fault: HintCallFault) -> &'static str
    ensures { result.now ≡ hints_fault_text fault }
{
    match fault {
        HintCallFault::Read => "Read",
        HintCallFault::Write => "Write",
        HintCallFault::OutOfMemory => "OutOfMemory",
    }
}

impl From<ConfirmFault> for ProgramFault {
    fn from(fault: ConfirmFault) -> ProgramFault {
        ProgramFault::Confirm(fault)
    }
}

impl From<HintFault> for ProgramFault {
    fn from(fault: HintFault) -> ProgramFault {
        match fault {
            HintFault::Read => ProgramFault::Hints(HintCallFault::Read),
            HintFault::OutOfMemory => ProgramFault::Hints(HintCallFault::OutOfMemory),
        }
    }
}
