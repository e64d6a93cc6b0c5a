//! Reading numbers and literals, which are decimal, have no leading zeros, and are followed by a single space.
ghost use Rattle.std.specs.Prelude.{MatchOption};
ghost use Rattle.sat_base.specs.dimacs.DimacsText.{number_text};
ghost use Rattle.sat_base.specs.text.NumberWords.{BeginsWithWord, BeginsWithNoWord};
ghost use Rattle.sat_hints.specs.Lines.{id_text};
ghost use Rattle.sat_hints.specs.inner.LineReading.{IsId, IsLiteralCode, IsVariableIndex};

use sat_base::{Lit, Var, read_number, take_text};

/// Reads an ID, which is an id plus one, and the space after it. Returns the id and the remaining bytes.
#[inline(always)]
pub(crate) fn read_id(bytes: &[u8]) -> Option<(u64, &[u8])>
    ensures { MatchOption result (BeginsWithNoWord id_text IsId bytes.now)
        (λ x. BeginsWithWord id_text IsId bytes.now x.0 x.1.now) }
{
    let (number, rest) = read_number(bytes, u64::MAX)?;
    Some((number - 1, rest))
}

/// Reads the number of a variable, and the space after it. Returns the index of the variable and the remaining bytes.
#[inline(always)]
pub(crate) fn read_variable(bytes: &[u8]) -> Option<(usize, &[u8])>
    ensures { MatchOption result (BeginsWithNoWord id_text IsVariableIndex bytes.now)
        (λ x. BeginsWithWord id_text IsVariableIndex bytes.now x.0 x.1.now) }
{
    let (number, rest) = read_number(bytes, Var::max_count() as u64)?;
    Some((number as usize - 1, rest))
}

/// Reads a literal, and the space after it. Returns the literal and the remaining bytes.
#[inline(always)]
pub(crate) fn read_literal(bytes: &[u8]) -> Option<(Lit, &[u8])>
    ensures { MatchOption result (BeginsWithNoWord number_text IsLiteralCode bytes.now)
        (λ x. BeginsWithWord number_text IsLiteralCode bytes.now x.0 x.1.now) }
{
    match take_text(bytes, b"-") {
        Some(following) => {
            let (index, rest) = read_variable(following)?;
            Some((Lit::from_index(index, false), rest))
        }
        None => {
            let (index, rest) = read_variable(bytes)?;
            Some((Lit::from_index(index, true), rest))
        }
    }
}
