//! Writes answers.
ghost use Rattle.std.specs.Prelude.{◌≡◌, IfErr, OnErr, OnOk};
ghost use Rattle.sat_base.specs.device.Device.{WriterFails, WriterAccepts};
ghost use Rattle.certify.specs.Devices.{OneWriterCallFailed};

use crate::fault::RunFault;
use sat_base::CountedWrite;

/// Writes `text`, which is part of the answers.
pub fn write_answer<A: CountedWrite>(answers: &mut A, text: &[u8]) -> Result<(), RunFault>
    ensures takes { OnOk result (WriterAccepts (A.seen answers.old) (A.seen answers.new) text.now) }
    ensures fails { IfErr result (λ e. (e ≡ RunFault.AnswersWrite)
        × OneWriterCallFailed (A.seen answers.old) (A.seen answers.new)) }
    ensures breaks { OnErr result (WriterFails (A.seen answers.old) (A.seen answers.new) text.now) }
{
    match answers.write_all_counted(text) {
        Ok(()) => Ok(()),
        Err(_) => Err(RunFault::AnswersWrite),
    }
}
