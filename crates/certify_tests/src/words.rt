//! Tests of what is printed for faults and for a `No`.

use crate::devices::is_printed;
use certify::answers::read::AnswerFault;
use certify::fault::RunFault;
use certify::headline::HeadlineFault;
use certify::verdict::{ConfirmFault, Why};
use std::alloc::Global;

fn faults_of_a_run(alloc: Global) -> bool {
    is_printed(alloc, &RunFault::ScriptRead, "the script can't be read")
        && is_printed(
            alloc,
            &RunFault::AnswersWrite,
            "the answers can't be written",
        )
        && is_printed(
            alloc,
            &RunFault::CertificateWrite,
            "the certificate can't be written",
        )
        && is_printed(alloc, &RunFault::OutOfMemory, "out of memory")
        && is_printed(alloc, &RunFault::StoreFull, "the store of clauses is full")
        && is_printed(alloc, &RunFault::CounterEnd, "a counter is at its end")
}

fn faults_of_answers(alloc: Global) -> bool {
    is_printed(
        alloc,
        &AnswerFault::Missing,
        "a line of the answers is missing",
    ) && is_printed(
        alloc,
        &AnswerFault::Text,
        "the answers have a line that isn't in form",
    ) && is_printed(alloc, &AnswerFault::OutOfMemory, "out of memory")
}

fn faults_of_a_confirmation(alloc: Global) -> bool {
    is_printed(alloc, &ConfirmFault::ScriptRead, "ScriptRead")
        && is_printed(alloc, &ConfirmFault::AnswersRead, "AnswersRead")
        && is_printed(alloc, &ConfirmFault::CertificateRead, "CertificateRead")
        && is_printed(alloc, &ConfirmFault::OutOfMemory, "OutOfMemory")
        && is_printed(alloc, &ConfirmFault::CounterEnd, "CounterEnd")
}

fn faults_of_the_headline(alloc: Global) -> bool {
    is_printed(
        alloc,
        &HeadlineFault::Run(RunFault::StoreFull),
        "the run is not finished: the store of clauses is full",
    ) && is_printed(
        alloc,
        &HeadlineFault::Confirm(ConfirmFault::CertificateRead),
        "there is no verdict: CertificateRead",
    )
}

fn causes_of_a_no(alloc: Global) -> bool {
    is_printed(alloc, &Why::AnswerMissing, "AnswerMissing")
        && is_printed(alloc, &Why::AnswerExtra, "AnswerExtra")
        && is_printed(alloc, &Why::AnswerText, "AnswerText")
        && is_printed(alloc, &Why::ClauseDiffers, "ClauseDiffers")
        && is_printed(alloc, &Why::NameDiffers, "NameDiffers")
        && is_printed(alloc, &Why::NameNotFresh, "NameNotFresh")
        && is_printed(alloc, &Why::AskDiffers, "AskDiffers")
        && is_printed(alloc, &Why::AnswerDiffers, "AnswerDiffers")
        && is_printed(alloc, &Why::StepRefused, "StepRefused")
        && is_printed(alloc, &Why::CertificateEnds, "CertificateEnds")
        && is_printed(alloc, &Why::StepOutOfPlace, "StepOutOfPlace")
}

#[test]
fn faults_and_causes_have_words(rt: HostRuntime) {
    assert!(rt; faults_of_a_run(rt.alloc()));
    assert!(rt; faults_of_answers(rt.alloc()));
    assert!(rt; faults_of_a_confirmation(rt.alloc()));
    assert!(rt; faults_of_the_headline(rt.alloc()));
    assert!(rt; causes_of_a_no(rt.alloc()));
}
