//! A caller with a contract of its own.
ghost use Rattle.std.specs.Prelude.{ℕ, ◌≡◌, ◌≢◌, ◌++◌, Bool, Some, List, IfErr, IfOk};
ghost use Rattle.sat_base.specs.steps.Steps.{Step};
ghost use Rattle.sat_hints.specs.Checks.{IsProof};
ghost use Rattle.sat_hints.specs.Conversion.{hint_verdict};
ghost use Rattle.sat_hints.specs.Laws.{IsCertificate};

use sat_base::{Counted, CountedRead};
use sat_checker::CheckerError;
use sat_hints::{HintError, HintFault, HintVerdict, check, convert};
use std::alloc::Global;

/// Checks a text. A proved text has the verdict `Proved`, with its fields.
fn verdict_on(alloc: Global, text: &[u8]) -> Result<HintVerdict, HintFault>
    ensures { (empty : Bool) (cores : ℕ) (lines : ℕ) → IsProof text.now empty cores lines
        → IfOk result (λ verdict. verdict ≡ HintVerdict.Proved empty cores lines) }
{
    check(alloc, &mut Counted::new(text))
}

/// Converts a certificate, and checks the text that was written. The verdict is `Proved`, with the fields of the steps'
/// lines. If the steps are accepted, only a device fault or a lack of memory can prevent this.
fn recheck<R: CountedRead>(
    alloc: Global,
    certificate: &mut R,
) -> Result<Result<HintVerdict, HintFault>, HintError>
    ensures proved { IfOk result (λ checked. IfOk checked
        (λ verdict. (steps : List Step) × (verdict ≡ hint_verdict steps))) }
    ensures accepted { (steps : List Step) (text more : List ℕ) → IsCertificate steps text
        → (R.seen certificate.old).to_come ≡ Some (text ++ more)
        → IfErr result (λ error. (e : CheckerError) → error ≢ HintError.Refused e) }
{
    let mut out = Counted::new(Vec::new(alloc));
    match convert(alloc, certificate, &mut out) {
        Ok(()) => {
            let text = out.into_inner();
            Ok(verdict_on(alloc, &text))
        }
        Err(error) => Err(error),
    }
}

/// Returns `true` if `verdict` is the verdict on the text of a certificate.
fn is_rechecked(alloc: Global, certificate: &[u8], verdict: HintVerdict) -> bool {
    match recheck(alloc, &mut Counted::new(certificate)) {
        Ok(checked) => checked == Ok(verdict),
        Err(_) => false,
    }
}

#[test]
fn certificates_are_rechecked(rt: HostRuntime) {
    // `AddClause` with the literal 1, `AddClause` with the literal -1, `DeleteVar` of their variable, and `End`.
    let certificate = [5, 1, 0, 5, 1, 1, 3, 0, 13];
    let verdict = HintVerdict::Proved {
        empty: true,
        cores: 0,
        lines: 4,
    };
    assert!(rt; is_rechecked(rt.alloc(), &certificate, verdict));
}
