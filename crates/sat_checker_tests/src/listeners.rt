//! Tests of the order in which processors and transcripts are notified.
use anyhow::anyhow;
use sat_base::{Lit, Var};
use sat_checker::processing::process_step;
use sat_checker::variables::Variables;
use sat_checker::{
    CheckedProofStep, Checker, CheckerData, Processing, Processors, ProofProcessor,
    ProofTranscriptProcessor, ProofTranscriptStep, Transcript,
};
use std::alloc::Global;

/// A listener that returns a fault at call number `at`, counted from 1.
#[derive(Drop)]
pub(crate) struct FailsAt {
    calls: u64,
    at: u64,
}

impl FailsAt {
    pub(crate) fn new(at: u64) -> FailsAt {
        FailsAt { calls: 0, at }
    }

    fn call(&mut self) -> anyhow::Result<()> {
        self.calls = self.calls.saturating_add(1);
        if self.calls == self.at {
            return Err(anyhow!("a fault"));
        }
        Ok(())
    }
}

impl ProofProcessor for FailsAt {
    ghost use Rattle.std.specs.Prelude.{⊤};

    ghost takes = { λ _ _ _ _. ⊤ };

    fn process_step(
        &mut self,
        _step: &CheckedProofStep<'_>,
        _names: CheckerData<'_>,
    ) -> anyhow::Result<()> {
        self.call()
    }
}

impl ProofTranscriptProcessor for FailsAt {
    ghost use Rattle.std.specs.Prelude.{⊤};

    ghost reads = { λ _ _ _ _. ⊤ };

    fn process_step(&mut self, _step: &ProofTranscriptStep<'_>) -> anyhow::Result<()> {
        self.call()
    }
}

/// Adds a processor and a transcript that accept everything. Returns `false` if memory runs out.
pub(crate) fn add_quiet(checker: &mut Checker<FailsAt, FailsAt>) -> bool {
    let processor = checker.add_processor(FailsAt::new(0));
    let transcript = checker.add_transcript(FailsAt::new(0));
    processor.is_ok() && transcript.is_ok()
}

/// Notifies the listeners up to four times. Returns how many times that succeeded before the first fault.
fn notified_times(
    processing: &mut Processing<FailsAt, FailsAt>,
    variables: &Variables,
    step: &CheckedProofStep<'_>,
) -> u64 {
    for count in 0..4 {
        if process_step(processing, variables, step).is_err() {
            return count;
        }
    }
    4
}

/// Adds two processors and a transcript that fail at call number `at`. Returns `false` if memory runs out.
fn add_three(processing: &mut Processing<FailsAt, FailsAt>, at: u64) -> bool {
    processing.add_processor(FailsAt::new(at)).is_ok()
        && processing.add_processor(FailsAt::new(at)).is_ok()
        && processing.add_transcript(FailsAt::new(at)).is_ok()
}

/// Returns `true` if two processors and a transcript, which fail at call number `at`, are returned as the first fault
/// left them: the second processor and the transcript were called once less.
fn are_returned(alloc: Global, at: u64) -> bool {
    let variables = Variables::new(alloc);
    let mut processing: Processing<FailsAt, FailsAt> = Processing::new(alloc);
    let added = add_three(&mut processing, at);
    let step = CheckedProofStep::AddClause { id: 0, clause: &[] };
    let count = notified_times(&mut processing, &variables, &step);
    let left = were_left(&processing.into_processors(), at);
    added && count.saturating_add(1) == at && left
}

/// Returns `true` if the first processor was called `at` times, and the second processor and the transcript once less.
fn were_left(given_back: &Processors<FailsAt, FailsAt>, at: u64) -> bool {
    given_back.processors.len() == 2
        && given_back.transcripts.len() == 1
        && given_back.processors[0].calls == at
        && given_back.processors[1].calls.saturating_add(1) == at
        && given_back.transcripts[0].calls.saturating_add(1) == at
}

#[test]
fn failed_processors_are_returned(rt: HostRuntime) {
    for at in 1..5 {
        assert!(rt; are_returned(rt.alloc(), at), "{at}");
    }
}

/// Returns `true` if the other listeners are not notified if a processor of the caller's own returns a fault, and are
/// notified otherwise.
fn is_reported_before(
    processing: &mut Processing<FailsAt, FailsAt>,
    names: CheckerData<'_>,
) -> bool {
    let step = CheckedProofStep::AddClause { id: 0, clause: &[] };
    let mut own = FailsAt::new(1);
    processing.step_with(&mut own, &step, names).is_err()
        && own.calls == 1
        && processing.step(&step, names).is_err()
        && processing.step_with(&mut own, &step, names).is_ok()
        && own.calls == 2
}

/// Returns `true` if there is a listener once a processor was added, and the caller's own processor is notified before
/// it.
fn is_reported_first(alloc: Global) -> bool {
    let variables = Variables::new(alloc);
    let mut processing: Processing<FailsAt, FailsAt> = Processing::new(alloc);
    processing.is_quiet()
        && processing.add_processor(FailsAt::new(1)).is_ok()
        && !processing.is_quiet()
        && is_reported_before(&mut processing, CheckerData::new(&variables))
}

#[test]
fn own_processor_is_reported_first(rt: HostRuntime) {
    assert!(rt; is_reported_first(rt.alloc()));
}

/// Returns the length of a clause in a transcript, and its first literal.
fn length_and_first(step: &ProofTranscriptStep<'_>) -> Option<(usize, i64)> {
    match *step {
        ProofTranscriptStep::AddClause { clause } => {
            Some((clause.len(), clause.first()?.to_dimacs()))
        }
        _ => None,
    }
}

/// Gives variable 1 the name 8, and makes variable 2 a witness without a name.
fn name_first(variables: &mut Variables) -> bool {
    let (first, second) = (Var::from_index(0), Var::from_index(1));
    variables
        .add_user_mapping(first, Var::from_index(7))
        .is_ok()
        && variables.ensure_var(second).is_ok()
        && variables.set_mode(second, false).is_ok()
}

/// Returns the length and the first literal of the transcript of `clause`.
fn transcribed(alloc: Global, variables: &Variables, clause: &[Lit]) -> Option<(usize, i64)> {
    let mut transcript = Transcript::new(alloc);
    let step = CheckedProofStep::AddClause { id: 0, clause };
    match transcript.transcript_step(&step, CheckerData::new(variables)) {
        Ok(Some(said)) => length_and_first(&said),
        _ => None,
    }
}

#[test]
fn clauses_are_transcribed(rt: HostRuntime) {
    let mut variables = Variables::new(rt.alloc());
    let named = name_first(&mut variables);
    let (first, second) = (Var::from_index(0), Var::from_index(1));
    let clause = [first.negative(), second.positive()];
    let said = transcribed(rt.alloc(), &variables, &clause);
    drop(variables);
    assert!(rt; named && said == Some((1, -8)));
}
