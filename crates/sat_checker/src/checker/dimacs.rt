//! Adds the clauses of a formula that is given as text in DIMACS CNF.
ghost use Rattle.std.specs.Prelude.{◌≡◌, ◌≤◌, ◌<◌, ◌+◌, false, IfOk};
ghost use Rattle.std.specs.Io.{ReadsAtMost};
ghost use Rattle.sat_base.specs.device.Device.{max_reads};
ghost use Rattle.sat_base.specs.dimacs.Faults.{ReadsOnceUnlessEnded};
ghost use Rattle.sat_base.specs.dimacs.Parsing.{with_all_taken, no_progress, ReportsEnded, MakesNoReadAfterEnd};
ghost use Rattle.sat_checker.specs.CheckerView.{checker_has_failed, kernel_of, looks_of, view_of, FailsAgain};
ghost use Rattle.sat_checker.specs.declared.error.CheckerDimacsError.TheVariants as errors;
ghost use Rattle.sat_checker.specs.declared.error.CheckerError.TheVariants.{HasFailed};
ghost use Rattle.sat_checker.specs.DimacsView.{AddDimacsResult, DimacsFaultNeedsListener};
ghost use Rattle.sat_checker.specs.KernelView.{kernel_looks};
ghost use Rattle.sat_checker.specs.inner.DimacsPieces.{AddsReadClauses, is_out_of_memory};
ghost use Rattle.sat_checker.specs.listeners.ProcessingView.{EachListenerReceives};

use crate::announce::transcript::ProofTranscriptProcessor;
use crate::checker::Checker;
use crate::error::{CheckerDimacsError, CheckerError};
use crate::processing::ProofProcessor;
use sat_base::{CountedRead, DimacsError, DimacsParser};
use std::io;

/// The number of bytes that are requested in each read.
const PIECE: usize = 4096;

/// The largest number of reads.
const MAX_READS: u64 = 1 << 48;

/// Returns `true` if the error is `OutOfMemory`, which makes the checker fail.
fn is_out_of_memory(error: DimacsError) -> bool
    ensures { result ≡ is_out_of_memory error }
{
    match error {
        DimacsError::OutOfMemory => true,
        DimacsError::Malformed { .. } => false,
        DimacsError::Limit { .. } => false,
        DimacsError::Read => false,
        DimacsError::HasFailed => false,
    }
}

/// Reads the next bytes of the text, or none if a line that begins with `%` has ended the text. Returns the number of
/// bytes read.
fn read_next<R: CountedRead>(
    parser: &DimacsParser,
    reader: &mut R,
    room: &mut [u8],
) -> io::Result<usize>
    ensures bound { ReadsAtMost result room.new }
    ensures reads { ReadsOnceUnlessEnded result room.new parser.now.fed (R.seen reader.old) (R.seen reader.new) }
    ensures goes_on { (R.seen reader.old).calls < (R.seen reader.new).calls → ReportsEnded false parser.now }
{
    if parser.has_ended() {
        return Ok(0);
    }
    reader.read_counted(room)
}

impl<P: ProofProcessor, T: ProofTranscriptProcessor> Checker<P, T> {
    /// Reads a formula in DIMACS CNF, in chunks of at most 4,096 bytes, and adds its clauses in order. The clauses
    /// before a fault in the text, or before a refused clause, remain. If the text is malformed or can't be read, the
    /// checker can still be used. A line that begins with `%` ends the text: no read follows the one that gives it.
    pub fn add_dimacs_cnf<R: CountedRead>(
        &mut self,
        reader: &mut R,
    ) -> Result<(), CheckerDimacsError>
        ensures adds { AddDimacsResult (EachListenerReceives P.takes T.reads)
            result (view_of self.old) (view_of self.new) (R.seen reader.old) (R.seen reader.new) }
        // No read is made after the one that gave the line that ends the text.
        ensures stops { MakesNoReadAfterEnd (R.seen reader.old) (R.seen reader.new) }
        ensures reads { (R.seen reader.new).calls ≤ (R.seen reader.old).calls + max_reads }
        ensures rise { looks_of (view_of self.old) ≤ looks_of (view_of self.new) }
        ensures faults { DimacsFaultNeedsListener result self.old }
        ensures failed { FailsAgain (errors.Checker HasFailed) result self.old self.new }
    {
        if self.kernel.failed {
            return Err(CheckerDimacsError::Checker(CheckerError::HasFailed));
        }
        let mut parser = DimacsParser::new(self.kernel.state.alloc);
        self.add_text(&mut parser, reader)
    }

    /// Adds the clauses of the text that `reader` provides. The parser must not already have received any text.
    fn add_text<R: CountedRead>(
        &mut self,
        parser: &mut DimacsParser,
        reader: &mut R,
    ) -> Result<(), CheckerDimacsError>
        requires well { checker_has_failed (view_of self.old) ≡ false }
        requires fresh { parser.old ≡ no_progress }
        ensures adds { AddDimacsResult (EachListenerReceives P.takes T.reads)
            result (view_of self.old) (view_of self.new) (R.seen reader.old) (R.seen reader.new) }
        ensures stops { MakesNoReadAfterEnd (R.seen reader.old) (R.seen reader.new) }
        ensures reads { (R.seen reader.new).calls ≤ (R.seen reader.old).calls + max_reads }
        ensures rise { kernel_looks (kernel_of self.old) ≤ kernel_looks (kernel_of self.new) }
    {
        let mut piece = [0; PIECE];
        for _ in 0..MAX_READS {
            match read_next(parser, reader, &mut piece) {
                Ok(0) => {
                    let answer = parser.finish();
                    return self.add_read(parser, answer);
                }
                Ok(count) => {
                    let answer = parser.feed(&piece[..count]);
                    self.add_read(parser, answer)?;
                }
                Err(_) => return Err(CheckerDimacsError::Dimacs(DimacsError::Read)),
            }
        }
        Err(CheckerDimacsError::Dimacs(DimacsError::Read))
    }

    /// Adds the clauses that the parser has completed so far. If this succeeds, returns the error, if any, in `answer`,
    /// the parser's last result.
    fn add_read(
        &mut self,
        parser: &mut DimacsParser,
        answer: Result<(), DimacsError>,
    ) -> Result<(), CheckerDimacsError>
        ensures taken { parser.new ≡ with_all_taken parser.old }
        ensures adds { AddsReadClauses (EachListenerReceives P.takes T.reads)
            result answer parser.old (view_of self.old) (view_of self.new) }
        ensures rise { kernel_looks (kernel_of self.old) ≤ kernel_looks (kernel_of self.new) }
    {
        let formula = parser.take_formula();
        if let Err(error) = self.add_formula(&formula) {
            return Err(CheckerDimacsError::Checker(error));
        }
        if let Err(error) = answer {
            self.kernel.failed = is_out_of_memory(error);
            return Err(CheckerDimacsError::Dimacs(error));
        }
        Ok(())
    }
}
