//! Decides which commands of a script are refused.
//!
//! This depends only on the names in use and their modes. A command is refused if it has a name past the limit, or if
//! it is a clause or an ask that contains a name in use whose mode is witness. The leftmost such name is the reason.

mod names;

pub use names::{Names, NewNames};
use sat_base::Var;

/// The state of a name that has been used before.
#[derive(Clone, Copy, Drop, PartialEq, Eq)]
pub(crate) enum NameState {
    /// Not in use.
    Hidden,
    /// In use, with the mode sample.
    Sampled,
    /// In use, with the mode witness.
    Witnessed,
}

/// Why a command is refused.
#[derive(Clone, Copy, Debug, Drop, PartialEq, Eq)]
pub enum Refusal {
    /// A name is past 2^28.
    Limit,
    /// The name with this index is in use, and its mode is witness.
    Witness(Var),
}
