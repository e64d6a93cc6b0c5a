//! The state of a script reader between tokens, and the effect of each token.
ghost use Rattle.std.specs.Prelude.{◌≡◌, ◌<◌, ◌&&◌, ◌||◌, ℕ, [], ◌∷◌, Bool, false, not, IfOk};
ghost use Rattle.sat_base.specs.text.Text.{Token as Spelled, Letter, Number};
ghost use Rattle.sat_base.specs.text.Tokenizing.{capped, capped_token};
ghost use Rattle.sat_base.specs.script.Language.{PartialCommand, NoCommand, allows_sign};
ghost use Rattle.certify.specs.script.Commands.{LetterBeginsKind, EndsCommands, HoldsPartialCommand, ReceivesToken};
ghost use Rattle.certify.specs.script.Commands.{end_reading_if};
ghost use Rattle.certify.specs.script.Commands.{is_ask_kind};
ghost use Rattle.certify.specs.script.Commands.{kind_of, remaining_reading};

use super::draft::Draft;
use super::{CommandKind, Reached, ScriptEnd};
use sat_base::Token;
use std::alloc::{AllocError, Global};

/// The command that is being read, and what has been read before it.
#[derive(Drop)]
pub(crate) struct Commands {
    pub draft: Draft,
    /// Whether a header has been read.
    headed: bool,
    /// Whether a complete ask has been read.
    asked: bool,
}

/// Returns the kind of command that `letter` begins, or `None`.
fn kind_of_letter(letter: u8) -> Option<CommandKind>
    ensures { LetterBeginsKind result letter }
{
    match letter {
        b'a' => Some(CommandKind::Ask),
        b'h' => Some(CommandKind::Hide),
        b'w' => Some(CommandKind::Witness),
        b's' => Some(CommandKind::Sample),
        _ => None,
    }
}

/// Returns `true` if a command of this kind can have a literal with this sign. Commands that list names have only
/// positive ones.
#[inline(always)]
fn allows_sign(kind: CommandKind, positive: bool) -> bool
    ensures { result ≡ allows_sign (kind_of kind) positive }
{
    match kind {
        CommandKind::Clause => true,
        CommandKind::Ask => true,
        CommandKind::Hide => positive,
        CommandKind::Witness => positive,
        CommandKind::Sample => positive,
    }
}

/// Returns `true` if commands of this kind are asks.
fn is_ask(kind: CommandKind) -> bool
    ensures { result ≡ is_ask_kind (kind_of kind) }
{
    matches!(kind, CommandKind::Ask)
}

impl Commands {
    /// Returns the state before the first token.
    pub fn new(alloc: Global) -> Commands
        ensures draft { HoldsPartialCommand result.draft NoCommand }
        ensures headed { result.headed ≡ false }
        ensures asked { result.asked ≡ false }
    {
        Commands {
            draft: Draft::new(alloc),
            headed: false,
            asked: false,
        }
    }

    /// Returns `true` if an ask has been read, or the current command is one.
    fn has_asked(&self) -> bool
        ensures { result ≡ (self.now.asked || is_ask_kind (kind_of self.now.draft.kind)) }
    {
        self.asked || is_ask(self.draft.kind)
    }

    /// Completes the command, after the `0` that ends it.
    #[inline(always)]
    fn end_command(&mut self)
        ensures { (negative : Bool) → ReceivesToken Reached.Command self.old (Number negative 0) self.new }
    {
        self.draft.end();
        self.asked = self.has_asked();
    }

    /// Adds a literal, whose `name` must not be 0. Returns `Malformed` if the command cannot have a literal with this
    /// sign, and otherwise `More`.
    #[inline(always)]
    fn add_literal(&mut self, name: u64, negative: bool) -> Result<Reached, AllocError>
        requires { 0 < name }
        ensures { IfOk result (λ reached. (value : ℕ) → name ≡ capped value
            → ReceivesToken reached self.old (Number negative value) self.new) }
    {
        self.draft.open();
        if !allows_sign(self.draft.kind, !negative) {
            return Ok(Reached::Malformed);
        }
        self.draft.add(name, !negative)?;
        Ok(Reached::More)
    }

    /// Begins the command that `letter` stands for, and returns `More`. Returns `Malformed` if there is no such
    /// command, or if a command is being read.
    fn begin(&mut self, letter: u8) -> Reached
        ensures { ReceivesToken result self.old (Letter letter) self.new }
    {
        if self.draft.is_open {
            return Reached::Malformed;
        }
        let Some(kind) = kind_of_letter(letter) else {
            return Reached::Malformed;
        };
        self.draft.begin(kind);
        Reached::More
    }

    /// Consumes the next token. Returns what it led to.
    #[inline(always)]
    pub fn take(&mut self, token: Token) -> Result<Reached, AllocError>
        ensures { IfOk result (λ reached. (t : Spelled) → token ≡ capped_token t
            → ReceivesToken reached self.old t self.new) }
    {
        match token {
            Token::Number { negative, value } => {
                if value == 0 {
                    self.end_command();
                    return Ok(Reached::Command);
                }
                self.add_literal(value, negative)
            }
            Token::Letter(byte) => Ok(self.begin(byte)),
            Token::Header { .. } => {
                self.headed = true;
                Ok(Reached::More)
            }
            Token::Wrong => Ok(Reached::Malformed),
        }
    }

    /// Returns `true` if a header has been read, but no ask.
    fn is_unasked(&self) -> bool
        ensures { result ≡ (self.now.headed && not self.now.asked) }
    {
        self.headed && !self.asked
    }

    /// Returns how the script ends if its text ends here, after a complete command or within one.
    pub fn ending(&self) -> ScriptEnd
        ensures { (asks : Bool) (hand : PartialCommand) → HoldsPartialCommand self.now.draft hand
            → end_reading_if asks result ≡ remaining_reading asks self.now hand [] }
    {
        if self.draft.is_open {
            return ScriptEnd::Malformed;
        }
        if self.is_unasked() {
            return ScriptEnd::Asked;
        }
        ScriptEnd::Clean
    }

    /// Consumes the last token, which ends with the text. Returns whether the token completes a command, as a `0` does,
    /// and how the script ends.
    pub fn finish_with(&mut self, token: Token) -> (bool, ScriptEnd)
        ensures { (t : Spelled) → token ≡ capped_token t → (asks : Bool) (hand : PartialCommand)
            → HoldsPartialCommand self.old.draft hand
            → EndsCommands asks result.0 result.1 self.new (remaining_reading asks self.old hand (t ∷ [])) }
    {
        match token {
            Token::Number { value, .. } => {
                if value == 0 {
                    self.end_command();
                    return (true, self.ending());
                }
                (false, ScriptEnd::Malformed)
            }
            Token::Header { .. } => {
                self.headed = true;
                (false, self.ending())
            }
            Token::Letter(_) => (false, ScriptEnd::Malformed),
            Token::Wrong => (false, ScriptEnd::Malformed),
        }
    }
}
