//! The verdict on three texts, the line that reports it, and the status for it.
ghost use Rattle.std.specs.Prelude.{◌≡◌, ◌≤◌, ◌↔◌, ◌++◌, IfOk, OnOk, false};
ghost use Rattle.certify.specs.declared.verdict.Verdict.TheVariants.{Yes};
ghost use Rattle.certify.specs.laws.EndToEnd.{VerdictGuarantee};
ghost use Rattle.certify.specs.program.Printing.{no_verdict_text, verdict_text, yes_or_no_text};

use crate::headline::confirm_over;
use crate::program::printing::{DONE, REFUSED};
use crate::verdict::{ConfirmFault, Verdict, Why};
use sat_base::push_decimal;
use sat_checker::Looks;
use std::alloc::{AllocError, Global};

/// Appends the ask and the reason from a `No`, followed by LF.
fn push_no(out: &mut Vec<u8>, ask: u64, why: Why) -> Result<(), AllocError>
    ensures { OnOk result (out.new.items ≡ out.old.items ++ no_verdict_text ask why) }
{
    push_decimal(out, ask)?;
    out.extend_from_slice(b" ")?;
    out.extend_from_slice(why.word().as_bytes())?;
    out.extend_from_slice(b"\n")
}

/// Appends the line `c confirmed` or `c not confirmed ASK WHY`.
fn push_verdict(out: &mut Vec<u8>, verdict: Verdict) -> Result<(), AllocError>
    ensures { OnOk result (out.new.items ≡ out.old.items ++ verdict_text verdict) }
{
    match verdict {
        Verdict::Yes => out.extend_from_slice(b"c confirmed\n"),
        Verdict::No { ask, why } => {
            out.extend_from_slice(b"c not confirmed ")?;
            push_no(out, ask, why)
        }
    }
}

/// Appends the line `yes` or `no ASK WHY`.
pub(super) fn push_yes_or_no(out: &mut Vec<u8>, verdict: Verdict) -> Result<(), AllocError>
    ensures { OnOk result (out.new.items ≡ out.old.items ++ yes_or_no_text verdict) }
{
    match verdict {
        Verdict::Yes => out.extend_from_slice(b"yes\n"),
        Verdict::No { ask, why } => {
            out.extend_from_slice(b"no ")?;
            push_no(out, ask, why)
        }
    }
}

/// Returns the status for a verdict. `malformed` says whether the script is malformed.
pub(super) fn status(verdict: Verdict, malformed: bool) -> u8
    ensures small { result ≤ 1 }
    ensures done { (result ≡ 0) ↔ ((verdict ≡ Yes) × (malformed ≡ false)) }
{
    match verdict {
        Verdict::Yes => { if malformed { REFUSED } else { DONE } }
        Verdict::No { .. } => REFUSED,
    }
}

/// Returns the verdict on three texts, and appends the line that reports the verdict to `line`.
pub(super) fn confirm_texts(
    alloc: Global,
    script: &[u8],
    answers: &[u8],
    certificate: &[u8],
    line: &mut Vec<u8>,
) -> Result<Verdict, ConfirmFault>
    ensures says { IfOk result (VerdictGuarantee script.now answers.now certificate.now) }
    ensures line { IfOk result (λ v. line.new.items ≡ line.old.items ++ verdict_text v) }
{
    let mut looks = Looks::new();
    let verdict = confirm_over(alloc, script, answers, certificate, &mut looks)?;
    push_verdict(line, verdict)?;
    Ok(verdict)
}
