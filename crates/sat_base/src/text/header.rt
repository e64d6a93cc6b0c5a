//! Places in a header line, which consists of `p cnf` and two numbers.
ghost use Rattle.std.specs.Prelude.{◌≡◌, false};
ghost use Rattle.sat_base.specs.text.Text.{is_blank};
ghost use Rattle.sat_base.specs.text.Position.{Position};
ghost use Rattle.sat_base.specs.text.Tokenizing.{IsInHeaderWordOfByte, MovesHeaderByByte, RepresentsHeaderPosition};
ghost use Rattle.sat_base.specs.text.Tokenizing.{RepresentsStageOrNone, stage_at_word_end};

use super::{is_digit, with_digit};

/// The words of a header line that are finished. Numbers are capped at 2^64-1.
#[derive(Clone, Copy, Drop)]
pub(crate) enum Stage {
    /// `p`.
    Named,
    /// `p cnf`.
    Format,
    /// `p cnf` and the number of variables.
    Vars(u64),
    /// `p cnf` and both numbers.
    Both { vars: u64, clauses: u64 },
}

/// A place in a header line. Numbers are capped at 2^64-1.
#[derive(Clone, Copy, Drop)]
pub(crate) enum HeaderPlace {
    /// After a blank that follows these words.
    Between(Stage),
    /// After `p`.
    P,
    /// After the `c` of `cnf`.
    C,
    /// After the `cn` of `cnf`.
    Cn,
    /// After `cnf`.
    Cnf,
    /// In the number of variables.
    Vars(u64),
    /// In the number of clauses.
    Clauses { vars: u64, value: u64 },
}

/// Returns the place after `byte`, which begins a word after the words `ended`, or `None` if no such word is
/// allowed there.
fn begun(ended: Stage, byte: u8) -> Option<HeaderPlace>
    requires { is_blank byte ≡ false }
    ensures { IsInHeaderWordOfByte ended byte result }
{
    match ended {
        Stage::Named => {
            if byte == b'c' {
                Some(HeaderPlace::C)
            } else {
                None
            }
        }
        Stage::Format => {
            if is_digit(byte) {
                Some(HeaderPlace::Vars((byte - 48) as u64))
            } else {
                None
            }
        }
        Stage::Vars(vars) => {
            if is_digit(byte) {
                Some(HeaderPlace::Clauses {
                    vars,
                    value: (byte - 48) as u64,
                })
            } else {
                None
            }
        }
        Stage::Both { .. } => None,
    }
}

/// Returns the place that follows `place` after the nonblank byte `byte`, or `None` if this makes the unfinished
/// word malformed.
pub(crate) fn next_in_header(place: HeaderPlace, byte: u8) -> Option<HeaderPlace>
    requires { is_blank byte ≡ false }
    ensures { MovesHeaderByByte place byte result }
{
    match place {
        HeaderPlace::Between(ended) => begun(ended, byte),
        HeaderPlace::C => {
            if byte == b'n' {
                Some(HeaderPlace::Cn)
            } else {
                None
            }
        }
        HeaderPlace::Cn => {
            if byte == b'f' {
                Some(HeaderPlace::Cnf)
            } else {
                None
            }
        }
        HeaderPlace::Vars(value) => {
            if is_digit(byte) {
                Some(HeaderPlace::Vars(with_digit(value, byte)))
            } else {
                None
            }
        }
        HeaderPlace::Clauses { vars, value } => {
            if is_digit(byte) {
                Some(HeaderPlace::Clauses {
                    vars,
                    value: with_digit(value, byte),
                })
            } else {
                None
            }
        }
        HeaderPlace::P => None,
        HeaderPlace::Cnf => None,
    }
}

/// Returns the words that are finished if the current word ends at `place`, or `None` if this would make that
/// word malformed.
pub(crate) fn ended_in(place: HeaderPlace) -> Option<Stage>
    ensures { (spot : Position) → RepresentsHeaderPosition place spot → RepresentsStageOrNone result (stage_at_word_end spot) }
{
    match place {
        HeaderPlace::Between(ended) => Some(ended),
        HeaderPlace::P => Some(Stage::Named),
        HeaderPlace::C => None,
        HeaderPlace::Cn => None,
        HeaderPlace::Cnf => Some(Stage::Format),
        HeaderPlace::Vars(value) => Some(Stage::Vars(value)),
        HeaderPlace::Clauses { vars, value } => Some(Stage::Both {
            vars,
            clauses: value,
        }),
    }
}
