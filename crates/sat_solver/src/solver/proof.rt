//! The proof of a solver, and where its text is written.
ghost use Rattle.sat_solver.specs.proof.ProofView.{ReturnsWriter, ReturnsListeners, ReturnsNotifiedListeners};
ghost use Rattle.sat_solver.specs.proof.ProofView.{returned_writer};
ghost use Rattle.sat_solver.specs.solver.Prefixes.{EngineReturnsAcceptedPrefix};
ghost use Rattle.sat_solver.specs.solver.Proving.{EngineAddsProcessor, EngineEnables, EngineOpensProof};
ghost use Rattle.sat_solver.specs.solver.Proving.{EngineClosesProof};
ghost use Rattle.sat_solver.specs.solver.View.{proof_in, engine_target};
ghost use Rattle.sat_solver.specs.solver.Whole.{EngineInvariant};

use crate::SolverError;
use crate::cdcl::fault::Fault;
use crate::proof::format::ProofFormat;
use crate::solver::Engine;
use sat_base::CountedWrite;
use sat_checker::ProofProcessor;

/// The target and the listeners that a solver returns.
#[derive(Drop)]
pub struct ReturnedParts<W, P> {
    pub target: Option<W>,
    pub processors: Vec<P>,
}

impl<W: CountedWrite + Drop, P: ProofProcessor> Engine<W, P> {
    /// Opens a proof: all further steps are written to `target` in the format `format`.
    pub fn write_proof(&mut self, target: W, format: ProofFormat) -> Result<(), SolverError>
        requires { EngineInvariant self.old }
        ensures solver { EngineInvariant self.new }
        ensures opens { EngineOpensProof W.seen result format target self.old self.new }
    {
        if self.failed {
            return Err(SolverError::HasFailed);
        }
        if self.used || self.context.proof.is_open() {
            return Err(SolverError::TooLate);
        }
        self.context.proof.open(format, target);
        Ok(())
    }

    /// Starts the solver's own checker, which receives all further steps.
    pub fn enable_self_checking(&mut self) -> Result<(), SolverError>
        requires { EngineInvariant self.old }
        ensures solver { EngineInvariant self.new }
        ensures enables { EngineEnables W.seen result self.old self.new }
    {
        if self.failed {
            return Err(SolverError::HasFailed);
        }
        if self.used || self.context.proof.has_begun() {
            return Err(SolverError::TooLate);
        }
        let alloc = self.context.search.alloc;
        self.context.proof.begin_checking(alloc);
        Ok(())
    }

    /// Adds a listener to the solver's own checker, starting one if there is none.
    pub fn add_proof_processor(&mut self, processor: P) -> Result<(), SolverError>
        requires { EngineInvariant self.old }
        ensures solver { EngineInvariant self.new }
        ensures adds { EngineAddsProcessor W.seen result processor self.old self.new }
    {
        if self.failed {
            return Err(SolverError::HasFailed);
        }
        if self.context.proof.has_begun() || self.used {
            return Err(SolverError::TooLate);
        }
        let alloc = self.context.search.alloc;
        self.context.proof.begin_checking(alloc);
        match self.context.proof.add_processor(processor) {
            Ok(()) => Ok(()),
            Err(error) => Err(self.fail(Fault::from(error))),
        }
    }

    /// Writes the `End` step, flushes the target and returns it. Returns `None` if no proof is open. After an error,
    /// the solver keeps the target.
    pub fn close_proof(&mut self) -> Result<Option<W>, SolverError>
        requires { EngineInvariant self.old }
        ensures solver { EngineInvariant self.new }
        ensures closes { EngineClosesProof W.seen result self.old self.new }
    {
        if self.failed {
            return Err(SolverError::HasFailed);
        }
        match self.context.proof.close_proof() {
            Ok(target) => Ok(target),
            Err(error) => Err(self.fail(Fault::from(error))),
        }
    }

    /// Returns the target without flushing it, if a proof is open or its target failed. Pending bytes are lost. The
    /// target has received a prefix of the text of steps that a checker accepts, even if the solver has failed. It can
    /// have received the `End` step only if `close_proof` returned an error.
    pub fn into_target(self) -> Option<W>
        ensures gives { ReturnsWriter (engine_target W.seen self) (returned_writer W.seen result) }
        ensures front { EngineReturnsAcceptedPrefix W.seen result self }
    {
        let mut solver = self;
        let target = solver.context.proof.take_target();
        drop(solver);
        target
    }

    /// Returns the listeners in the order in which they were added, and the target, even after a failure.
    pub fn into_processors(self) -> ReturnedParts<W, P>
        ensures target { ReturnsWriter (engine_target W.seen self) (returned_writer W.seen result.target) }
        ensures front { EngineReturnsAcceptedPrefix W.seen result.target self }
        ensures processors { ReturnsListeners (proof_in self) result.processors.items }
        ensures whole { ReturnsNotifiedListeners (proof_in self) result.processors.items }
    {
        let mut solver = self;
        let target = solver.context.proof.take_target();
        let alloc = solver.context.search.alloc;
        let processors = solver.context.proof.take_processors(alloc);
        drop(solver);
        ReturnedParts { target, processors }
    }
}
