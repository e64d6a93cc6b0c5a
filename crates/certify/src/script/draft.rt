//! The command that is being read.
ghost use Rattle.std.specs.Prelude.{◌<◌, ◌++◌, ◌∷◌, [], List, true, false, OnOk};
ghost use Rattle.sat_base.specs.script.Script.{Literal};
ghost use Rattle.sat_base.specs.script.Language.{PartialCommand, Kind, NoCommand, InCommand, command_in};
ghost use Rattle.certify.specs.script.Commands.{HoldsPartialCommand, IsNumbered, IsWholeCommand, kind_of};
ghost use Rattle.certify.specs.script.Commands.{or_empty_clause};

use super::CommandKind;
use sat_base::{Lit, Var};
use std::alloc::{AllocError, Global};

/// The command that is being read, with its literals so far, or the last command that was completed.
#[derive(Drop)]
pub(crate) struct Draft {
    pub kind: CommandKind,
    /// The literals before the first one whose name is past the limit.
    pub literals: Vec<Lit>,
    pub past_limit: bool,
    /// Whether the command is not complete yet.
    pub is_open: bool,
}

impl Draft {
    /// Returns a draft without a command. Never allocates.
    pub fn new(alloc: Global) -> Draft
        ensures { HoldsPartialCommand result NoCommand }
    {
        Draft {
            kind: CommandKind::Clause,
            literals: Vec::new(alloc),
            past_limit: false,
            is_open: false,
        }
    }

    /// Begins a command.
    #[inline(always)]
    pub fn begin(&mut self, kind: CommandKind)
        ensures { HoldsPartialCommand self.new (InCommand (kind_of kind) []) }
    {
        self.kind = kind;
        self.literals.clear();
        self.past_limit = false;
        self.is_open = true;
    }

    /// Adds a literal to the command that is being read. `name` must not be 0.
    #[inline(always)]
    pub fn add(&mut self, name: u64, positive: bool) -> Result<(), AllocError>
        requires { 0 < name }
        ensures { OnOk result ((kind : Kind) (ls : List Literal) (l : Literal) → IsNumbered l name positive
            → HoldsPartialCommand self.old (InCommand kind ls) → HoldsPartialCommand self.new (InCommand kind (ls ++ l ∷ []))) }
    {
        if self.past_limit {
            return Ok(());
        }
        if name > Var::max_count() as u64 {
            self.past_limit = true;
            return Ok(());
        }
        self.literals
            .push(Lit::from_index(name as usize - 1, positive))?;
        Ok(())
    }

    /// Begins a clause if no command is being read.
    #[inline(always)]
    pub fn open(&mut self)
        ensures { (hand : PartialCommand) → HoldsPartialCommand self.old hand → HoldsPartialCommand self.new (or_empty_clause hand) }
    {
        if !self.is_open {
            self.begin(CommandKind::Clause);
        }
    }

    /// Completes the command that is being read, after the `0` that ends it. If no command is being read, the completed
    /// command is the clause without literals.
    #[inline(always)]
    pub fn end(&mut self)
        ensures none { HoldsPartialCommand self.new NoCommand }
        ensures whole { (hand : PartialCommand) → HoldsPartialCommand self.old hand → IsWholeCommand self.new (command_in hand) }
    {
        self.open();
        self.is_open = false;
    }
}
