//! Reads scripts, and returns a reference to every command as soon as it is complete.

pub(crate) mod ahead;
mod commands;
mod draft;
mod reader;
pub(crate) mod stream;

pub use reader::ScriptReader;
use sat_base::Lit;

/// The kind of a command.
#[derive(Clone, Copy, Debug, Drop, PartialEq, Eq)]
pub enum CommandKind {
    /// A clause with the literals. A clause without literals is false.
    Clause,
    /// An ask about the clauses so far, with the literals as assumptions.
    Ask,
    /// A command that hides the names.
    Hide,
    /// A command that sets the mode of the names to witness.
    Witness,
    /// A command that sets the mode of the names to sample.
    Sample,
}

/// A command, whose literals are borrowed from its reader.
#[derive(Clone, Copy, Debug)]
pub struct Command<'a> {
    pub kind: CommandKind,
    /// The literals before the first one whose name is past 2^28. In a command that lists names, a name is a
    /// positive literal.
    pub literals: &'a [Lit],
    /// Whether a name of the command is past 2^28. If so, `literals` ends before that name.
    pub past_limit: bool,
}

/// How far a script reader got.
#[derive(Clone, Copy, Debug, Drop, PartialEq, Eq)]
pub enum Reached {
    /// The end of the bytes.
    More,
    /// The end of a command.
    Command,
    /// A byte that makes the text malformed, at the command after the last complete one.
    Malformed,
}

/// How a script ends.
#[derive(Clone, Copy, Debug, Drop, PartialEq, Eq)]
pub enum ScriptEnd {
    Clean,
    /// Cleanly, with a header but without an ask: an ask without literals is due.
    Asked,
    Malformed,
}
