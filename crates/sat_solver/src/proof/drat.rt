//! The lines of a DRAT proof: one for every derived or deleted clause, in decimal or in binary.
ghost use Rattle.std.specs.Prelude.{◌≡◌, ◌++◌, [], ◌∷◌, OnOk, codes, decimal, if◌then◌else◌};
ghost use Rattle.sat_base.specs.dimacs.DimacsText.{clause_line};
ghost use Rattle.sat_base.specs.steps.StepViews.{step_of};
ghost use Rattle.sat_solver.specs.proof.DratText.{binary_clause_bytes, line_prefix, clause_text, unit_lines};
ghost use Rattle.sat_solver.specs.proof.DratText.{drat_lines_text};
ghost use Rattle.sat_solver.specs.proof.DratText.{drat_text};

use sat_base::{ClauseHash, Lit, ProofStep, push_decimal, push_leb128};
use std::alloc::AllocError;

/// Appends `number` in decimal, preceded by a minus sign unless `positive` is true.
fn put_sign(text: &mut Vec<u8>, number: u64, positive: bool) -> Result<(), AllocError>
    ensures { OnOk result (text.new.items
        ≡ text.old.items ++ ((if positive then [] else codes "-") ++ decimal number)) }
{
    if positive {
        return push_decimal(text, number);
    }
    text.push(b'-')?;
    push_decimal(text, number)
}

/// Appends a clause in decimal: the number of each literal, followed by a space, and finally `0` and LF.
fn put_words(text: &mut Vec<u8>, lits: &[Lit]) -> Result<(), AllocError>
    ensures { OnOk result (text.new.items ≡ text.old.items ++ clause_line lits.now) }
{
    for lit in lits {
        put_sign(text, lit.index() as u64 + 1, lit.is_positive())?;
        text.push(b' ')?;
    }
    text.extend_from_slice(b"0\n")
}

/// Appends a clause in binary: the code of each literal plus two, in LEB128, and finally a zero byte.
fn put_bytes(text: &mut Vec<u8>, lits: &[Lit]) -> Result<(), AllocError>
    ensures { OnOk result (text.new.items ≡ text.old.items ++ binary_clause_bytes lits.now) }
{
    for lit in lits {
        push_leb128(text, lit.code() as u64 + 2)?;
    }
    text.push(0)?;
    Ok(())
}

/// Appends the mark at the start of the line for a deleted or derived clause, if the line has one.
fn put_mark(text: &mut Vec<u8>, binary: bool, deleted: bool) -> Result<(), AllocError>
    ensures { OnOk result (text.new.items ≡ text.old.items ++ line_prefix binary deleted) }
{
    match (binary, deleted) {
        (false, false) => Ok(()),
        (false, true) => text.extend_from_slice(b"d "),
        (true, false) => text.extend_from_slice(b"a"),
        (true, true) => text.extend_from_slice(b"d"),
    }
}

/// Appends one line: the mark, and the clause.
fn put_line(text: &mut Vec<u8>, binary: bool, deleted: bool, lits: &[Lit]) -> Result<(), AllocError>
    ensures { OnOk result (text.new.items ≡ text.old.items ++ (line_prefix binary deleted ++ clause_text binary lits.now)) }
{
    put_mark(text, binary, deleted)?;
    if binary {
        return put_bytes(text, lits);
    }
    put_words(text, lits)
}

/// Appends a line for every unit.
fn put_units(
    text: &mut Vec<u8>,
    binary: bool,
    units: &[(Lit, ClauseHash)],
) -> Result<(), AllocError>
    ensures { OnOk result (text.new.items ≡ text.old.items ++ drat_lines_text binary (unit_lines units.now)) }
{
    for unit in units {
        put_line(text, binary, false, &[unit.0])?;
    }
    Ok(())
}

/// Appends the lines of a step, if it has any.
pub fn put_step(text: &mut Vec<u8>, binary: bool, step: &ProofStep<'_>) -> Result<(), AllocError>
    ensures { OnOk result (text.new.items ≡ text.old.items ++ drat_text binary (step_of step.now)) }
{
    match step {
        ProofStep::AtClause { clause, .. } => put_line(text, binary, false, clause),
        ProofStep::UnitClauses { units } => put_units(text, binary, units),
        ProofStep::DeleteClause { clause, .. } => put_line(text, binary, true, clause),
        ProofStep::SolverVarName { .. } => Ok(()),
        ProofStep::UserVarName { .. } => Ok(()),
        ProofStep::DeleteVar { .. } => Ok(()),
        ProofStep::ChangeSamplingMode { .. } => Ok(()),
        ProofStep::AddClause { .. } => Ok(()),
        ProofStep::ChangeHashBits { .. } => Ok(()),
        ProofStep::Model { .. } => Ok(()),
        ProofStep::Assumptions { .. } => Ok(()),
        ProofStep::FailedAssumptions { .. } => Ok(()),
        ProofStep::End => Ok(()),
    }
}
