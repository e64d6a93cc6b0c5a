//! Writes formulas as DIMACS CNF.
ghost use Rattle.std.specs.Prelude.{◌≡◌, decimal, OnOk, []};
ghost use Rattle.sat_base.specs.dimacs.DimacsText.{clause_line, clause_lines, dimacs_text, header_line, number_text};
ghost use Rattle.sat_base.specs.device.Device.{WritesText};
ghost use Rattle.sat_base.specs.device.Sink.{SendsText, sink_of};

use crate::decimal::{MOST_DIGITS, write_decimal};
use crate::device::ahead::PIECE;
use crate::device::kept_error::WriteFailed;
use crate::device::output::Output;
use crate::device::pending::Pending;
use crate::device::room::Room;
use crate::{CnfFormula, CountedWrite, Lit};
use std::io;

impl<W: CountedWrite, P: Room> Output<W, P> {
    /// Writes a number in decimal to the buffer.
    fn put_decimal(&mut self, number: u64) -> Result<(), WriteFailed>
        ensures { SendsText (decimal number) result (sink_of W.seen P.waiting self.old)
            (sink_of W.seen P.waiting self.new) }
    {
        let mut digits = [0; MOST_DIGITS];
        let end = write_decimal(&mut digits, 0, number);
        self.put_all(&digits[..end])
    }

    /// Writes the number of a literal to the buffer, with a `-` if the literal is negative.
    fn put_literal(&mut self, lit: Lit) -> Result<(), WriteFailed>
        ensures { SendsText (number_text lit) result (sink_of W.seen P.waiting self.old)
            (sink_of W.seen P.waiting self.new) }
    {
        let number = lit.index() as u64 + 1;
        if lit.is_positive() {
            return self.put_decimal(number);
        }
        self.put(b'-')?;
        self.put_decimal(number)
    }

    /// Writes the line of a clause to the buffer.
    fn put_clause(&mut self, lits: &[Lit]) -> Result<(), WriteFailed>
        ensures { SendsText (clause_line lits.now) result (sink_of W.seen P.waiting self.old)
            (sink_of W.seen P.waiting self.new) }
    {
        for lit in lits {
            self.put_literal(*lit)?;
            self.put(b' ')?;
        }
        self.put_all(b"0\n")
    }

    /// Writes the lines of all clauses to the buffer.
    fn put_clauses(&mut self, formula: &CnfFormula) -> Result<(), WriteFailed>
        ensures { SendsText (clause_lines formula.now.clauses) result (sink_of W.seen P.waiting self.old)
            (sink_of W.seen P.waiting self.new) }
    {
        for clause in formula {
            self.put_clause(clause)?;
        }
        Ok(())
    }

    /// Writes the line `p cnf V C` to the buffer.
    fn put_header(&mut self, vars: u64, clauses: u64) -> Result<(), WriteFailed>
        ensures { SendsText (header_line vars clauses) result (sink_of W.seen P.waiting self.old)
            (sink_of W.seen P.waiting self.new) }
    {
        self.put_all(b"p cnf ")?;
        self.put_decimal(vars)?;
        self.put(b' ')?;
        self.put_decimal(clauses)?;
        self.put(b'\n')
    }

    /// Writes the text of a formula, and leaves no bytes pending.
    fn write_formula(&mut self, formula: &CnfFormula) -> Result<(), WriteFailed>
        ensures sends { SendsText (dimacs_text formula.now) result (sink_of W.seen P.waiting self.old)
            (sink_of W.seen P.waiting self.new) }
        ensures none { OnOk result (P.waiting self.new.pending ≡ []) }
    {
        self.put_header(formula.var_count() as u64, formula.len() as u64)?;
        self.put_clauses(formula)?;
        self.write_rest()
    }
}

/// Writes a formula in DIMACS CNF: a line `p cnf V C` with the numbers of variables and clauses, then a line for every
/// clause, with the numbers of its literals and `0`. Writes in pieces of at most 4,096 bytes, and never allocates.
/// After an error, a prefix of the text may have been written.
pub fn write_dimacs<W: CountedWrite>(writer: &mut W, formula: &CnfFormula) -> io::Result<()>
    ensures { WritesText (dimacs_text formula.now) result (W.seen writer.old) (W.seen writer.new) }
{
    let mut output: Output<&mut W, Pending<PIECE>> = Output::new(writer, Pending::new());
    let written = output.write_formula(formula);
    let result = output.give_error(written);
    let _writer = output.into_writer();
    result
}
