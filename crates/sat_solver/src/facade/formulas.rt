//! Reads formulas in chunks, and adds their clauses.
ghost use Rattle.std.specs.Io.{ReadsAtMost};
ghost use Rattle.std.specs.Prelude.{◌≡◌, ◌<◌, ◌≤◌, ◌+◌, false, IfOk};
ghost use Rattle.sat_base.specs.device.Device.{max_reads};
ghost use Rattle.sat_base.specs.dimacs.Faults.{ReadsOnceUnlessEnded};
ghost use Rattle.sat_base.specs.dimacs.Parsing.{with_all_taken, no_progress, ReportsEnded, MakesNoReadAfterEnd};
ghost use Rattle.sat_solver.specs.facade.Formulas.{AddsFormulaRead, AddsText, with_fault};
ghost use Rattle.sat_solver.specs.solver.Formulas.{text_fault};

use crate::SolverError;
use crate::facade::Solver;
use sat_base::{CountedRead, CountedWrite, DimacsError, DimacsParser};
use sat_checker::ProofProcessor;
use std::alloc::Global;
use std::io;

/// The number of bytes that are requested at a time.
const PIECE: usize = 4096;

/// The maximum number of times that the reader of a text is called.
const MAX_READS: u64 = 1 << 48;

/// Reads the next bytes of the text that `parser` receives, or none if a line that begins with `%` has ended the text.
/// Returns the number of bytes that were read.
fn read_next<R: CountedRead>(
    parser: &DimacsParser,
    reader: &mut R,
    room: &mut [u8],
) -> io::Result<usize>
    ensures bound { ReadsAtMost result room.new }
    ensures reads { ReadsOnceUnlessEnded result room.new parser.now.fed (R.seen reader.old) (R.seen reader.new) }
    ensures goes_on { (R.seen reader.old).calls < (R.seen reader.new).calls → ReportsEnded false parser.now }
{
    if parser.has_ended() {
        return Ok(0);
    }
    reader.read_counted(room)
}

impl<W: CountedWrite + Drop, P: ProofProcessor> Solver<W, P> {
    /// Returns `true` if a call failed.
    pub(crate) fn is_failed(&self) -> bool
        ensures { result ≡ self.now.failed }
    {
        self.inner.is_failed()
    }

    /// Returns the allocator.
    pub(crate) fn alloc(&self) -> Global {
        self.inner.alloc()
    }

    /// Stops at an error in a formula's text, and returns the solver's error for it. No call may have failed.
    fn stop_at(&mut self, error: DimacsError) -> SolverError
        requires { self.old.failed ≡ false }
        ensures fault { result ≡ text_fault error }
        ensures failed { self.new ≡ with_fault error self.old }
    {
        self.inner.stop_at(error)
    }

    /// Adds the clauses that the parser has completed so far. `answer` is what the parser has just reported.
    fn add_read(
        &mut self,
        parser: &mut DimacsParser,
        answer: Result<(), DimacsError>,
    ) -> Result<(), SolverError>
        requires { self.old.failed ≡ false }
        ensures taken { parser.new ≡ with_all_taken parser.old }
        ensures adds { AddsFormulaRead P.takes result answer parser.old self.old self.new }
    {
        let formula = parser.take_formula();
        self.add_formula(&formula)?;
        if let Err(error) = answer {
            return Err(self.stop_at(error));
        }
        Ok(())
    }

    /// Adds the clauses of the text that `reader` provides. `parser` must not have received any text.
    pub(crate) fn add_text<R: CountedRead>(
        &mut self,
        parser: &mut DimacsParser,
        reader: &mut R,
    ) -> Result<(), SolverError>
        requires going { self.old.failed ≡ false }
        requires fresh { parser.old ≡ no_progress }
        ensures adds { AddsText P.takes result self.old self.new (R.seen reader.old) (R.seen reader.new) }
        ensures stops { MakesNoReadAfterEnd (R.seen reader.old) (R.seen reader.new) }
        ensures reads { (R.seen reader.new).calls ≤ (R.seen reader.old).calls + max_reads }
    {
        let mut piece = [0; PIECE];
        for _ in 0..MAX_READS {
            match read_next(parser, reader, &mut piece) {
                Ok(0) => {
                    let answer = parser.finish();
                    return self.add_read(parser, answer);
                }
                Ok(count) => {
                    let answer = parser.feed(&piece[..count]);
                    self.add_read(parser, answer)?;
                }
                Err(_) => return Err(SolverError::Read),
            }
        }
        Err(SolverError::Read)
    }
}
