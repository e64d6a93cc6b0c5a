//! Appends the lines of answers to a buffer.
//!
//! If memory runs out, part of a line may have been appended. A name is written as a number that is one more than the
//! name's index.
ghost use Rattle.std.specs.Prelude.{◌≡◌, ◌++◌, OnOk};
ghost use Rattle.certify.specs.answers.Answers.{literals_text, malformed_line, outcome_text, refused_line};
ghost use Rattle.certify.specs.answers.Answers.{literal_text};
ghost use Rattle.sat_checker.specs.matching.Expected.{Sat, Unsat, Unknown};
ghost use Rattle.certify.specs.answers.AnswerForms.{named_literal, named_literals};
ghost use Rattle.sat_base.specs.script.ScriptState.{PastLimit};

use sat_base::{Lit, MOST_DIGITS, push_decimal, write_decimal};
use std::alloc::AllocError;

/// Appends a literal in DIMACS notation.
pub fn push_literal(out: &mut Vec<u8>, lit: Lit) -> Result<(), AllocError>
    ensures { OnOk result (out.new.items ≡ out.old.items ++ literal_text (named_literal lit)) }
{
    let mut bytes = [b'-'; MOST_DIGITS + 1];
    let end = write_decimal(&mut bytes, 1, lit.index() as u64 + 1);
    if lit.is_negative() {
        return out.extend_from_slice(&bytes[..end]);
    }
    out.extend_from_slice(&bytes[1..end])
}

/// Appends every literal with a space after it, and then `0` and LF.
fn push_literals(out: &mut Vec<u8>, lits: &[Lit]) -> Result<(), AllocError>
    ensures { OnOk result (out.new.items ≡ out.old.items ++ literals_text (named_literals lits.now)) }
{
    for lit in lits {
        push_literal(out, *lit)?;
        out.push(b' ')?;
    }
    out.extend_from_slice(b"0\n")
}

/// Appends the line `s SATISFIABLE` and the `v` line with a model.
pub fn push_sat(out: &mut Vec<u8>, line: &[Lit]) -> Result<(), AllocError>
    ensures { OnOk result (out.new.items ≡ out.old.items ++ outcome_text (Sat (named_literals line.now))) }
{
    out.extend_from_slice(b"s SATISFIABLE\nv ")?;
    push_literals(out, line)
}

/// Appends the line `s UNSATISFIABLE` and the `f` line with a core.
pub fn push_unsat(out: &mut Vec<u8>, core: &[Lit]) -> Result<(), AllocError>
    ensures { OnOk result (out.new.items ≡ out.old.items ++ outcome_text (Unsat (named_literals core.now))) }
{
    out.extend_from_slice(b"s UNSATISFIABLE\nf ")?;
    push_literals(out, core)
}

/// Appends the line `s UNKNOWN`.
pub fn push_unknown(out: &mut Vec<u8>) -> Result<(), AllocError>
    ensures { OnOk result (out.new.items ≡ out.old.items ++ outcome_text Unknown) }
{
    out.extend_from_slice(b"s UNKNOWN\n")
}

/// Appends the line that says that command `command` is refused because of a name past the limit.
pub fn push_refused_limit(out: &mut Vec<u8>, command: u64) -> Result<(), AllocError>
    ensures { OnOk result (out.new.items ≡ out.old.items ++ refused_line command PastLimit) }
{
    out.extend_from_slice(b"c refused ")?;
    push_decimal(out, command)?;
    out.extend_from_slice(b" limit\n")
}

/// Appends the last line of the answers for a script that is malformed at command `command`.
pub fn push_malformed(out: &mut Vec<u8>, command: u64) -> Result<(), AllocError>
    ensures { OnOk result (out.new.items ≡ out.old.items ++ malformed_line command) }
{
    out.extend_from_slice(b"c malformed ")?;
    push_decimal(out, command)?;
    out.push(b'\n')?;
    Ok(())
}
