//! Compares a certificate's next ordered step with the one that a script and its answers expect.
ghost use Rattle.std.specs.Prelude.{◌≡◌, ◌+◌, Some, None, IfOk, if◌then◌else◌};
ghost use Rattle.sat_base.specs.steps.StepViews.{step_of};
ghost use Rattle.sat_checker.specs.matching.Expected.{NewName, NoName, Adds, Opens, Fails, Closes, Finish};
ghost use Rattle.certify.specs.answers.AnswerForms.{named_literals};
ghost use Rattle.certify.specs.confirm.SpeltLiterals.{AllAmong, Decides};
ghost use Rattle.certify.specs.refusals.Names.{ListsNamesInUse};
ghost use Rattle.certify.specs.confirm.Comparing.{ComparesStep, ComparesLine, DecidesMayBeUnmet, due_of};

use crate::confirm::literals::{LitScratch, are_spelt_by, are_spelt_in, has_all};
use crate::confirm::variables::NamedVars;
use crate::refusals::Names;
use crate::verdict::Why;
use sat_base::{Lit, ProofStep, Var};
use sat_checker::Checker;
use std::alloc::AllocError;

/// The ordered step that is expected next, in terms of names. The variable of a literal is a name.
#[derive(Clone, Copy)]
pub(crate) enum Expected<'a> {
    /// A step that gives the name a variable that the checker does not know.
    NewName(Var),
    /// A step that removes the name from its variable.
    NoName(Var),
    /// A step that adds a clause with these literals.
    Clause(&'a [Lit]),
    /// A step that assumes the literals of an ask.
    Ask(&'a [Lit]),
    /// A step with a model that has the values of `line`. The line must list the names in use and contain the literals
    /// of `ask`.
    Model {
        names: &'a Names,
        ask: &'a [Lit],
        line: &'a [Lit],
    },
    /// A step with this core.
    Core(&'a [Lit]),
    /// A step that assumes no literals, which ends an ask.
    Close,
    /// The end of the certificate.
    End,
}

/// The state in which a step is compared: the checker that has received the steps before it, and the variables of
/// the names.
#[derive(Clone, Copy)]
pub(crate) struct Known<'a> {
    pub checker: &'a Checker,
    pub variables: &'a NamedVars,
}

/// Returns `None` if `holds` is true, and `why` otherwise.
fn unless(holds: bool, why: Why) -> Option<Why>
    ensures { result ≡ (if holds then None else Some why) }
{
    if holds {
        return None;
    }
    Some(why)
}

/// Checks whether the step gives `name` a variable that the checker does not know yet. Returns `None` if so, and
/// otherwise the reason.
fn compare_new_name(known: Known<'_>, step: &ProofStep<'_>, name: Var) -> Option<Why>
    ensures { ComparesStep (λ o ask. NewName (name + 1)) known.entry (step_of step.now) result }
{
    let ProofStep::UserVarName { global, user } = *step else {
        return Some(Why::StepOutOfPlace);
    };
    let Some(user) = user else {
        return Some(Why::NameDiffers);
    };
    if user.index() != name.index() {
        return Some(Why::NameDiffers);
    }
    let known_before = known.checker.knows(global);
    if known_before {
        return Some(Why::NameNotFresh);
    }
    None
}

/// Checks whether the step removes `name` from its variable. Returns `None` if so, and otherwise the reason.
fn compare_no_name(known: Known<'_>, step: &ProofStep<'_>, name: Var) -> Option<Why>
    ensures { ComparesStep (λ o ask. NoName (name + 1)) known.entry (step_of step.now) result }
{
    let ProofStep::UserVarName { global, user } = *step else {
        return Some(Why::StepOutOfPlace);
    };
    if let Some(_) = user {
        return Some(Why::NameDiffers);
    }
    let Some(variable) = known.variables.get(name) else {
        return Some(Why::NameDiffers);
    };
    if variable.index() != global.index() {
        return Some(Why::NameDiffers);
    }
    None
}

/// Checks whether the step adds a clause with the literals of the script's clause, in any order and with any repeats.
/// Returns `None` if so, and otherwise the reason.
fn compare_clause(
    known: Known<'_>,
    step: &ProofStep<'_>,
    literals: &[Lit],
    room: &mut LitScratch,
) -> Result<Option<Why>, AllocError>
    ensures { IfOk result (ComparesStep (λ o ask. Adds (named_literals literals.now)) known.entry (step_of step.now)) }
{
    let ProofStep::AddClause { clause } = *step else {
        return Ok(Some(Why::StepOutOfPlace));
    };
    let same = are_spelt_by(known.variables, literals, clause, room)?;
    Ok(unless(same, Why::ClauseDiffers))
}

/// Checks whether the step assumes the literals of the ask, in any order and with any repeats. Returns `None` if so,
/// and otherwise the reason.
fn compare_ask(
    known: Known<'_>,
    step: &ProofStep<'_>,
    literals: &[Lit],
    room: &mut LitScratch,
) -> Result<Option<Why>, AllocError>
    ensures { IfOk result (ComparesStep (λ o ask. Opens (named_literals literals.now) o) known.entry (step_of step.now)) }
{
    let ProofStep::Assumptions { assumptions } = *step else {
        return Ok(Some(Why::StepOutOfPlace));
    };
    let same = are_spelt_by(known.variables, literals, assumptions, room)?;
    Ok(unless(same, Why::AskDiffers))
}

/// Checks whether the step has the core of the answer. Returns `None` if so, and otherwise the reason. The checker will
/// check the step's hashes.
fn compare_core(
    known: Known<'_>,
    step: &ProofStep<'_>,
    core: &[Lit],
    room: &mut LitScratch,
) -> Result<Option<Why>, AllocError>
    ensures { IfOk result (ComparesStep (λ o ask. Fails ask (named_literals core.now)) known.entry (step_of step.now)) }
{
    let ProofStep::FailedAssumptions {
        failed_core,
        propagation_hashes: _hashes,
    } = *step
    else {
        return Ok(Some(Why::StepOutOfPlace));
    };
    let same = are_spelt_by(known.variables, core, failed_core, room)?;
    Ok(unless(same, Why::AnswerDiffers))
}

/// Returns `true` if `line` lists the names in use, in order, and contains the literals of `ask`.
fn is_line(
    names: &Names,
    ask: &[Lit],
    line: &[Lit],
    room: &mut LitScratch,
) -> Result<bool, AllocError>
    ensures { IfOk result (λ yes. Decides yes (ListsNamesInUse names.now line.now × AllAmong ask.now line.now)) }
{
    if names.are_listed(line) {
        return has_all(line, ask, room);
    }
    Ok(false)
}

/// Checks whether the step is a model with the values of `line`. Returns `None` if so, and otherwise the reason.
fn compare_line(
    known: Known<'_>,
    step: &ProofStep<'_>,
    line: &[Lit],
    room: &mut LitScratch,
) -> Result<Option<Why>, AllocError>
    ensures { IfOk result (ComparesLine known.entry line.now (step_of step.now)) }
{
    let ProofStep::Model { assignment } = *step else {
        return Ok(Some(Why::StepOutOfPlace));
    };
    let shown = are_spelt_in(known.variables, line, assignment, room)?;
    Ok(unless(shown, Why::AnswerDiffers))
}

/// Checks whether the step assumes no literals, which ends an ask. Returns `None` if so, and otherwise the reason.
fn compare_close(known: Known<'_>, step: &ProofStep<'_>) -> Option<Why>
    ensures { ComparesStep (λ o ask. Closes) known.entry (step_of step.now) result }
{
    let ProofStep::Assumptions { assumptions } = *step else {
        return Some(Why::StepOutOfPlace);
    };
    if assumptions.is_empty() {
        return None;
    }
    Some(Why::AskDiffers)
}

/// Checks whether the step is the end of the certificate. Returns `None` if so, and otherwise the reason. Bytes after
/// that step don't matter.
fn compare_end(known: Known<'_>, step: &ProofStep<'_>) -> Option<Why>
    ensures { ComparesStep (λ o ask. Finish) known.entry (step_of step.now) result }
{
    let ProofStep::End = *step else {
        return Some(Why::StepOutOfPlace);
    };
    None
}

/// Compares a step with the expected one. Returns why they differ, or `None`.
pub(crate) fn fits(
    known: Known<'_>,
    step: &ProofStep<'_>,
    expected: &Expected<'_>,
    room: &mut LitScratch,
) -> Result<Option<Why>, AllocError>
    ensures { IfOk result (ComparesStep (due_of expected.now) known.entry (step_of step.now)) }
{
    match *expected {
        Expected::NewName(name) => Ok(compare_new_name(known, step, name)),
        Expected::NoName(name) => Ok(compare_no_name(known, step, name)),
        Expected::Clause(literals) => compare_clause(known, step, literals, room),
        Expected::Ask(literals) => compare_ask(known, step, literals, room),
        Expected::Model { names, ask, line } => {
            let ProofStep::Model { .. } = *step else {
                return Ok(Some(Why::StepOutOfPlace));
            };
            if !is_line(names, ask, line, room)? {
                return Ok(Some(Why::AnswerDiffers));
            }
            compare_line(known, step, line, room)
        }
        Expected::Core(core) => compare_core(known, step, core, room),
        Expected::Close => Ok(compare_close(known, step)),
        Expected::End => Ok(compare_end(known, step)),
    }
}

/// Returns `None` if the expected step may be missing once `unsat` is recorded, and otherwise why the certificate is
/// rejected. Only a model, or a core that is not empty, must be present.
pub(crate) fn why_not_optional(expected: &Expected<'_>) -> Option<Why>
    ensures { DecidesMayBeUnmet (due_of expected.now) result }
{
    match *expected {
        Expected::Model { names: _names, .. } => Some(Why::AnswerDiffers),
        Expected::Core(core) => {
            if core.is_empty() {
                return None;
            }
            Some(Why::AnswerDiffers)
        }
        Expected::NewName(_name) => None,
        Expected::NoName(_name) => None,
        Expected::Clause(_) => None,
        Expected::Ask(_) => None,
        Expected::Close => None,
        Expected::End => None,
    }
}
