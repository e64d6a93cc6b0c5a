//! Ends a run.
ghost use Rattle.std.specs.Prelude.{◌≡◌, [], true, Err, IfOk, OnErr, OnOk, Some};
ghost use Rattle.sat_base.specs.device.Device.{WriterAccepts};
ghost use Rattle.sat_solver.specs.proof.ProofView.{ReturnsWriter};
ghost use Rattle.sat_solver.specs.session.Session.{AreAllowedSteps};
ghost use Rattle.certify.specs.Devices.{OneWriterCallFailed};
ghost use Rattle.certify.specs.run.Unfinished.{ReceivedBytes};
ghost use Rattle.certify.specs.run.SolverCalls.{IsReadySolver};
ghost use Rattle.certify.specs.run.Ending.{EndsCertificate, EndsRun, FinishesRun, ReturnedWithPrefix, HasTarget};
ghost use Rattle.certify.specs.run.Ending.{HasOpenTarget};

use super::faults::fault_of;
use super::session::RunState;
use crate::fault::RunFault;
use crate::summary::Summary;
use sat_base::CountedWrite;
use sat_solver::Solver;
use sat_solver::facade::laws::steps_record_answers;

/// Returns the certificate's writer after a fault. Steps that have not been written yet are lost.
fn return_writer<C: CountedWrite + Drop>(solver: Solver<C>) -> C
    requires { HasTarget solver }
    ensures gives { ReturnsWriter solver.target (Some (C.seen result)) }
    ensures front { ReturnedWithPrefix solver (C.seen result) }
    ensures may { ∥ AreAllowedSteps solver.steps ∥₁ }
{
    steps_record_answers(&solver);
    match solver.into_target() {
        Some(certificate) => certificate,
        None => unreachable!(),
    }
}

/// Writes all steps that have not been written yet and the certificate's last step, and flushes the writer. Returns
/// the writer.
fn close_certificate<C: CountedWrite + Drop>(solver: Solver<C>) -> (C, Result<(), RunFault>)
    requires ready { IsReadySolver solver }
    requires target { HasOpenTarget solver }
    ensures closes { EndsCertificate result.1 solver (C.seen result.0) }
    ensures front { ReturnedWithPrefix solver (C.seen result.0) }
{
    let mut solver = solver;
    match solver.close_proof() {
        Ok(Some(certificate)) => {
            drop(solver);
            (certificate, Ok(()))
        }
        Ok(None) => unreachable!(),
        Err(error) => (return_writer(solver), Err(fault_of(error))),
    }
}

/// Flushes the answers' writer, so that no write error is missed.
fn flush_answers<A: CountedWrite>(answers: &mut A) -> Result<(), RunFault>
    ensures took { OnOk result (WriterAccepts (A.seen answers.old) (A.seen answers.new) []) }
    ensures flushed { OnOk result ((A.seen answers.new).flushed ≡ true) }
    ensures fails { OnErr result (OneWriterCallFailed (A.seen answers.old) (A.seen answers.new)) }
    ensures fault { OnErr result (result ≡ Err RunFault.AnswersWrite) }
    ensures kept { OnErr result (ReceivedBytes (A.seen answers.old) (A.seen answers.new) []) }
{
    match answers.flush_counted() {
        Ok(()) => Ok(()),
        Err(_) => Err(RunFault::AnswersWrite),
    }
}

/// Ends the certificate, and then flushes the answers' writer. Returns the certificate's writer.
fn finish<A: CountedWrite, C: CountedWrite + Drop>(
    solver: Solver<C>,
    answers: &mut A,
) -> (C, Result<(), RunFault>)
    requires ready { IsReadySolver solver }
    requires target { HasOpenTarget solver }
    ensures finishes { FinishesRun result.1 solver (C.seen result.0) (A.seen answers.old) (A.seen answers.new) }
    ensures front { ReturnedWithPrefix solver (C.seen result.0) }
{
    let (certificate, closed) = close_certificate(solver);
    match closed {
        Ok(()) => (certificate, flush_answers(answers)),
        Err(fault) => (certificate, Err(fault)),
    }
}

/// Ends a run after its script was served with the result `served`, up to line `line`. Returns the certificate's
/// writer, and a summary or a fault.
pub(crate) fn end_run<A: CountedWrite, C: CountedWrite + Drop>(
    session: RunState<C>,
    answers: &mut A,
    served: Result<Option<u64>, RunFault>,
    line: u64,
) -> (C, Result<Summary, RunFault>)
    requires ready { OnOk served (IsReadySolver session.solver) }
    requires target { OnOk served (HasOpenTarget session.solver) }
    requires some { HasTarget session.solver }
    ensures ends { EndsRun served result.1 session (C.seen result.0) (A.seen answers.old) (A.seen answers.new) }
    ensures front { ReturnedWithPrefix session.solver (C.seen result.0) }
    ensures line { IfOk result.1 (λ s. s.line ≡ line) }
{
    let RunState {
        names: _names,
        solver,
        budget: _budget,
        page: _page,
        commands,
        refused,
        asks,
    } = session;
    let malformed = match served {
        Ok(malformed) => malformed,
        Err(fault) => return (return_writer(solver), Err(fault)),
    };
    let summary = Summary {
        commands,
        refused,
        malformed,
        line,
        asks,
        progress: solver.progress(),
    };
    let (certificate, finished) = finish(solver, answers);
    match finished {
        Ok(()) => (certificate, Ok(summary)),
        Err(fault) => (certificate, Err(fault)),
    }
}
