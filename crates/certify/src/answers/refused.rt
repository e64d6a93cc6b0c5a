//! Writes the lines that report refused commands.
ghost use Rattle.std.specs.Prelude.{◌≡◌, ◌+◌, ◌++◌, OnOk};
ghost use Rattle.sat_base.specs.script.ScriptState.{WitnessName};
ghost use Rattle.certify.specs.answers.Answers.{refused_line};
ghost use Rattle.certify.specs.refusals.Names.{refusal_of_code};
ghost use Rattle.certify.specs.confirm.Lines.{IsOneLine};

use super::write::push_refused_limit;
use crate::refusals::Refusal;
use sat_base::{Var, push_decimal};
use std::alloc::AllocError;

/// Appends the line that says that command `command` is refused because `name` is in use and its mode is witness.
fn push_refused_witness(out: &mut Vec<u8>, command: u64, name: Var) -> Result<(), AllocError>
    ensures text { OnOk result (out.new.items ≡ out.old.items ++ refused_line command (WitnessName (name + 1))) }
    ensures line { OnOk result (IsOneLine (refused_line command (WitnessName (name + 1)))) }
{
    let number = name.index() as u64 + 1;
    out.extend_from_slice(b"c refused ")?;
    push_decimal(out, command)?;
    out.extend_from_slice(b" witness ")?;
    push_decimal(out, number)?;
    out.push(b'\n')?;
    Ok(())
}

/// Appends the line that says that command `command` is refused, and why.
pub(crate) fn push_refused(
    out: &mut Vec<u8>,
    command: u64,
    refusal: Refusal,
) -> Result<(), AllocError>
    ensures text { OnOk result (out.new.items ≡ out.old.items ++ refused_line command (refusal_of_code refusal)) }
    ensures line { OnOk result (IsOneLine (refused_line command (refusal_of_code refusal))) }
{
    match refusal {
        Refusal::Limit => push_refused_limit(out, command),
        Refusal::Witness(name) => push_refused_witness(out, command, name),
    }
}
