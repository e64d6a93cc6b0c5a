//! Finds faults in the text of a formula without allocating.
ghost use Rattle.std.specs.Prelude.{◌≡◌, ◌++◌, ◌∷◌, [], ℕ, List};
ghost use Rattle.sat_base.specs.dimacs.Collecting.{token_of};
ghost use Rattle.sat_base.specs.dimacs.Faults.{FindsFault, HasReceivedWithoutFault, ReportsTokenFault};
ghost use Rattle.sat_base.specs.dimacs.Faults.{OutOfMemoryOrFault};

use super::clauses::LARGEST;
use super::error::DimacsError;
use crate::{Token, Tokenizer};

/// Returns an error if the token is a fault in any clause. `line` is the line of the token.
fn judge_token(token: Token, line: u64) -> Result<(), DimacsError>
    ensures { ReportsTokenFault result line (token_of token) }
{
    match token {
        Token::Number { value, .. } => {
            if value > LARGEST {
                return Err(DimacsError::Limit { line });
            }
            Ok(())
        }
        Token::Header { .. } => Ok(()),
        Token::Letter(_) => Err(DimacsError::Malformed { line }),
        Token::Wrong => Err(DimacsError::Malformed { line }),
    }
}

/// Passes the next byte of a text to the tokenizer. Returns an error if the byte ends a faulty word, or makes a
/// word malformed.
fn take_byte(tokenizer: &mut Tokenizer, byte: u8) -> Result<(), DimacsError>
    ensures { (text : List ℕ) → HasReceivedWithoutFault text tokenizer.old
        → FindsFault result (text ++ byte ∷ []) tokenizer.new }
{
    let Some(token) = tokenizer.push(byte) else {
        if tokenizer.is_wrong() {
            return Err(DimacsError::Malformed {
                line: tokenizer.line(),
            });
        }
        return Ok(());
    };
    judge_token(token, tokenizer.line())
}

/// Passes the next bytes of a text to the tokenizer. Returns the first fault as an error.
fn take_bytes(tokenizer: &mut Tokenizer, bytes: &[u8]) -> Result<(), DimacsError>
    ensures { (text : List ℕ) → HasReceivedWithoutFault text tokenizer.old
        → FindsFault result (text ++ bytes.now) tokenizer.new }
{
    for byte in bytes {
        take_byte(tokenizer, *byte)?;
    }
    Ok(())
}

/// Returns the error to report for a parser that has stopped with `error` within `bytes`: the first fault in `bytes` if
/// `error` is `OutOfMemory` and there is a fault, and otherwise `error`.
pub(crate) fn error_within(tokenizer: Tokenizer, bytes: &[u8], error: DimacsError) -> DimacsError
    ensures same { (error ≡ DimacsError.OutOfMemory → ⊥) → result ≡ error }
    ensures found { error ≡ DimacsError.OutOfMemory → (text : List ℕ) → HasReceivedWithoutFault text tokenizer
        → OutOfMemoryOrFault result (text ++ bytes.now) }
{
    let mut tokenizer = tokenizer;
    match error {
        DimacsError::OutOfMemory => match take_bytes(&mut tokenizer, bytes) {
            Ok(()) => DimacsError::OutOfMemory,
            Err(fault) => fault,
        },
        error => error,
    }
}
