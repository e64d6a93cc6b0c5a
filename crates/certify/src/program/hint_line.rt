//! The line that reports the verdict on a hint text, and the status for that verdict.
ghost use Rattle.std.specs.Prelude.{◌≡◌, ◌≤◌, ◌↔◌, ◌++◌, OnOk, true};
ghost use Rattle.certify.specs.program.HintPrinting.{bad_text, digit_of, hint_verdict_text, hint_why_text, is_proved};
ghost use Rattle.certify.specs.program.HintPrinting.{proved_text};

use crate::program::printing::{DONE, REFUSED};
use sat_base::push_decimal;
use sat_hints::{HintVerdict, HintWhy};
use std::alloc::AllocError;

/// Returns the name of the variant.
fn word(why: HintWhy) -> &'static str
    ensures { result.now ≡ hint_why_text why }
{
    match why {
        HintWhy::Syntax => "Syntax",
        HintWhy::IdOrder => "IdOrder",
        HintWhy::UnknownId => "UnknownId",
        HintWhy::NotUnit => "NotUnit",
        HintWhy::NotFalsified => "NotFalsified",
        HintWhy::VarInUse => "VarInUse",
    }
}

/// Returns the text `1` if `empty` is true, and `0` otherwise.
fn digit(empty: bool) -> &'static [u8]
    ensures { result.now ≡ digit_of empty }
{
    if empty {
        return b"1";
    }
    b"0"
}

/// Appends the line `proved empty=E cores=K lines=L`.
fn push_proved(out: &mut Vec<u8>, empty: bool, cores: u64, lines: u64) -> Result<(), AllocError>
    ensures { OnOk result (out.new.items ≡ out.old.items ++ proved_text empty cores lines) }
{
    out.extend_from_slice(b"proved empty=")?;
    out.extend_from_slice(digit(empty))?;
    out.extend_from_slice(b" cores=")?;
    push_decimal(out, cores)?;
    out.extend_from_slice(b" lines=")?;
    push_decimal(out, lines)?;
    out.extend_from_slice(b"\n")
}

/// Appends the line `bad LINE WHY`.
fn push_bad(out: &mut Vec<u8>, line: u64, why: HintWhy) -> Result<(), AllocError>
    ensures { OnOk result (out.new.items ≡ out.old.items ++ bad_text line why) }
{
    out.extend_from_slice(b"bad ")?;
    push_decimal(out, line)?;
    out.extend_from_slice(b" ")?;
    out.extend_from_slice(word(why).as_bytes())?;
    out.extend_from_slice(b"\n")
}

/// Appends the line that reports a verdict.
pub(super) fn push_hint_verdict(out: &mut Vec<u8>, verdict: HintVerdict) -> Result<(), AllocError>
    ensures { OnOk result (out.new.items ≡ out.old.items ++ hint_verdict_text verdict) }
{
    match verdict {
        HintVerdict::Proved {
            empty,
            cores,
            lines,
        } => push_proved(out, empty, cores, lines),
        HintVerdict::Bad { line, why } => push_bad(out, line, why),
    }
}

/// Returns the status for a verdict.
pub(super) fn hint_status(verdict: HintVerdict) -> u8
    ensures small { result ≤ 1 }
    ensures done { (result ≡ 0) ↔ (is_proved verdict ≡ true) }
{
    match verdict {
        HintVerdict::Proved { .. } => DONE,
        HintVerdict::Bad { .. } => REFUSED,
    }
}
