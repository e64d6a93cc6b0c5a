//! The verdict of `confirm`.
ghost use Rattle.std.specs.Prelude.{◌≡◌};
ghost use Rattle.certify.specs.program.Printing.{why_text};

use std::alloc::AllocError;
use std::fmt;
use thiserror::Error;

/// The verdict on a script, answers and a certificate.
#[derive(Clone, Copy, Debug, Drop, PartialEq, Eq)]
pub enum Verdict {
    /// The three texts match.
    Yes,
    /// The three texts do not match. `why` is the first mismatch that was found, and `ask` is one more than the number
    /// of accepted asks that were confirmed completely before. No contract says what these fields are.
    No { ask: u64, why: Why },
}

/// The first mismatch.
#[derive(Clone, Copy, Debug, Drop, PartialEq, Eq)]
pub enum Why {
    /// The answers end where a line is expected.
    AnswerMissing,
    /// The answers have more bytes after the last expected line.
    AnswerExtra,
    /// The next bytes of the answers are not a line that is allowed there.
    AnswerText,
    /// A clause of the certificate is not the script's next clause.
    ClauseDiffers,
    /// A name in the certificate is not the script's next name.
    NameDiffers,
    /// A name gets a variable that the checker already knows.
    NameNotFresh,
    /// The assumptions are not those of the script's ask.
    AskDiffers,
    /// An answer is not the one that the certificate shows.
    AnswerDiffers,
    /// The checker refuses a step, or the bytes don't encode a step.
    StepRefused,
    /// The certificate ends where a step is expected.
    CertificateEnds,
    /// A step is not of the expected kind.
    StepOutOfPlace,
}

impl Why {
    /// Returns the name of the variant, as it is printed for a `No`.
    pub fn word(self) -> &'static str
        ensures { result.now ≡ why_text self }
    {
        match self {
            Why::AnswerMissing => "AnswerMissing",
            Why::AnswerExtra => "AnswerExtra",
            Why::AnswerText => "AnswerText",
            Why::ClauseDiffers => "ClauseDiffers",
            Why::NameDiffers => "NameDiffers",
            Why::NameNotFresh => "NameNotFresh",
            Why::AskDiffers => "AskDiffers",
            Why::AnswerDiffers => "AnswerDiffers",
            Why::StepRefused => "StepRefused",
            Why::CertificateEnds => "CertificateEnds",
            Why::StepOutOfPlace => "StepOutOfPlace",
        }
    }
}

impl fmt::Display for Why {
    fn fmt<W: fmt::Write>(&self, f: &mut fmt::Formatter<W>) -> fmt::Result {
        f.write_str(self.word())
    }
}

/// Why there is no verdict.
#[derive(Clone, Copy, Debug, Drop, PartialEq, Eq, Error)]
pub enum ConfirmFault {
    /// The script's reader failed, or was read 2^48 times.
    #[error("ScriptRead")]
    ScriptRead,
    /// The answers' reader failed, or was read 2^48 times.
    #[error("AnswersRead")]
    AnswersRead,
    /// The certificate's reader failed, or was read 2^48 times.
    #[error("CertificateRead")]
    CertificateRead,
    #[error("OutOfMemory")]
    OutOfMemory,
    /// A count exceeds 64 bits. `confirm` never returns this variant.
    #[error("CounterEnd")]
    CounterEnd,
}

impl From<AllocError> for ConfirmFault {
    ghost use Rattle.std.specs.Prelude.{◌≡◌};
    ghost use Rattle.certify.specs.declared.verdict.ConfirmFault.TheVariants.{OutOfMemory};

    ghost from_gives = { λ _ e. e ≡ OutOfMemory };

    fn from(_e: AllocError) -> ConfirmFault {
        ConfirmFault::OutOfMemory
    }
}
