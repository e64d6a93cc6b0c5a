//! Confirms that a certificate introduces and hides the names of a script's commands.
ghost use Rattle.std.specs.Prelude.{◌+◌, ◌≤◌, map, OnOk};
ghost use Rattle.sat_base.specs.script.ScriptState.{names_from};
ghost use Rattle.sat_base.specs.script.Script.{names_of};
ghost use Rattle.sat_base.specs.values.Literals.{var_limit};
ghost use Rattle.sat_checker.specs.CheckerView.{kernel_of};
ghost use Rattle.sat_checker.specs.matching.Expected.{NewName};
ghost use Rattle.certify.specs.answers.AnswerForms.{named_literals};
ghost use Rattle.certify.specs.confirm.Streams.{CertificateCall, StepsGoOn, StepsGoOnIf, StepReadsAreFew, SameLoan};
ghost use Rattle.certify.specs.confirm.Streams.{stream_of};
ghost use Rattle.certify.specs.refusals.Names.{NamesChangeBy, state_after_name};
ghost use Rattle.certify.specs.confirm.Naming.{MeetsAll, MeetsName, MeetsNames, hiding_step_of, state_after_names};
ghost use Rattle.certify.specs.script.Commands.{kind_of};

use crate::confirm::certificate::Certificate;
use crate::confirm::expect::Expected;
use crate::confirm::stop::Stop;
use crate::refusals::{Names, NewNames};
use crate::script::CommandKind;
use sat_base::{CountedRead, Lit, StepReader, Var};

/// A certificate, and the names in use in the script that it is matched with.
#[derive(Drop)]
pub(crate) struct Matching {
    pub certificate: Certificate,
    pub names: Names,
}

/// Expects the steps that introduce new names, in order.
fn expect_new<R: CountedRead>(
    certificate: &mut Certificate,
    steps: &mut StepReader<'_, R>,
    new: NewNames,
) -> Result<(), Stop>
    requires goes_on { StepsGoOn R.seen steps.old }
    requires within { new.first + new.count ≤ var_limit }
    ensures same { SameLoan steps.old steps.new }
    ensures bound { StepReadsAreFew R.seen steps.new }
    ensures goes_on { StepsGoOnIf result R.seen steps.new }
    ensures confirms { CertificateCall result (stream_of R.seen steps.old (kernel_of certificate.old.checker))
        (stream_of R.seen steps.new (kernel_of certificate.new.checker))
        (MeetsAll (map NewName (names_from new.count (new.first + 1))) certificate.old.names certificate.new.names) }
{
    for done in 0..new.count {
        let name = Var::from_index(new.first + done);
        certificate.expect(steps, &Expected::NewName(name))?;
    }
    Ok(())
}

/// Expects the step that hides `name`, if commands of this kind hide names.
fn expect_hidden<R: CountedRead>(
    certificate: &mut Certificate,
    steps: &mut StepReader<'_, R>,
    kind: CommandKind,
    name: Var,
) -> Result<(), Stop>
    requires goes_on { StepsGoOn R.seen steps.old }
    ensures same { SameLoan steps.old steps.new }
    ensures bound { StepReadsAreFew R.seen steps.new }
    ensures goes_on { StepsGoOnIf result R.seen steps.new }
    ensures confirms { CertificateCall result (stream_of R.seen steps.old (kernel_of certificate.old.checker))
        (stream_of R.seen steps.new (kernel_of certificate.new.checker))
        (MeetsAll (hiding_step_of (kind_of kind) (name + 1)) certificate.old.names certificate.new.names) }
{
    match kind {
        CommandKind::Hide => certificate.expect(steps, &Expected::NoName(name)),
        CommandKind::Clause => Ok(()),
        CommandKind::Ask => Ok(()),
        CommandKind::Witness => Ok(()),
        CommandKind::Sample => Ok(()),
    }
}

impl Matching {
    /// Expects the steps for one name of an accepted command of this kind, and updates the names in use.
    pub fn take_name<R: CountedRead>(
        &mut self,
        steps: &mut StepReader<'_, R>,
        kind: CommandKind,
        name: Var,
    ) -> Result<(), Stop>
        requires goes_on { StepsGoOn R.seen steps.old }
        ensures same { SameLoan steps.old steps.new }
        ensures bound { StepReadsAreFew R.seen steps.new }
        ensures goes_on { StepsGoOnIf result R.seen steps.new }
        ensures changes { OnOk result (NamesChangeBy self.old.names self.new.names (state_after_name (kind_of kind) (name + 1))) }
        ensures confirms { CertificateCall result (stream_of R.seen steps.old (kernel_of self.old.certificate.checker))
            (stream_of R.seen steps.new (kernel_of self.new.certificate.checker))
            (MeetsName (kind_of kind) (name + 1) self.old.names self.old.certificate.names self.new.certificate.names) }
    {
        let new = self.names.new_names(name);
        expect_new(&mut self.certificate, steps, new)?;
        expect_hidden(&mut self.certificate, steps, kind, name)?;
        self.names.take(kind, name)?;
        Ok(())
    }

    /// Expects the steps for all names of an accepted command of this kind, from left to right, and updates the names
    /// in use.
    pub fn take_names<R: CountedRead>(
        &mut self,
        steps: &mut StepReader<'_, R>,
        kind: CommandKind,
        literals: &[Lit],
    ) -> Result<(), Stop>
        requires goes_on { StepsGoOn R.seen steps.old }
        ensures same { SameLoan steps.old steps.new }
        ensures bound { StepReadsAreFew R.seen steps.new }
        ensures goes_on { StepsGoOnIf result R.seen steps.new }
        ensures changes { OnOk result (NamesChangeBy self.old.names self.new.names
            (state_after_names (kind_of kind) (names_of (named_literals literals.now)))) }
        ensures confirms { CertificateCall result (stream_of R.seen steps.old (kernel_of self.old.certificate.checker))
            (stream_of R.seen steps.new (kernel_of self.new.certificate.checker))
            (MeetsNames (kind_of kind) (names_of (named_literals literals.now)) self.old.names
            self.old.certificate.names self.new.certificate.names) }
    {
        if self.names.are_known(kind, literals) {
            return Ok(());
        }
        for lit in literals {
            self.take_name(steps, kind, lit.var())?;
        }
        Ok(())
    }
}
