//! Laws about names in a certificate, for use only in proofs.
ghost use Rattle.certify.specs.confirm.NamesAfterStep.{UnorderedKeepVariables};
ghost use Rattle.certify.specs.confirm.Naming.{NamesAreExpected};

/// States that steps that are not ordered don't change the variables of names.
pub fn unordered_keep_variables()
    ensures { UnorderedKeepVariables }
{}

/// States that the steps that a command expects for its names, taken one by one, are the steps before the one for its
/// clause or ask.
pub fn names_expected()
    ensures { NamesAreExpected }
{}
