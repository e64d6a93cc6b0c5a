//! A byte-by-byte test for whether bytes can begin a line.
ghost use Rattle.std.specs.Prelude.{◌≡◌, ◌≤◌, ◌∷◌, []};
ghost use Rattle.sat_hints.specs.Lines.{HasNoLf};
ghost use Rattle.sat_hints.specs.inner.Prefixes.{letter_place, limit_of, next_of, sign_place, zero_place, LeadsToPlace};
ghost use Rattle.sat_hints.specs.inner.Prefixes.{ReachesPlace};
ghost use Rattle.sat_hints.specs.declared.prefixes.Place.TheVariants.{Digits, Item};

use sat_base::{Var, append_digit};

/// The part of a line that is still expected.
#[derive(Clone, Copy)]
pub(crate) enum Part {
    /// `ID LITS 0`
    InputId,
    /// `ID LITS 0 IDS 0`
    DerivedId,
    /// `ID 0`
    RemovedId,
    /// `VAR 0`
    FreshVar,
    /// `LITS 0`
    Clause,
    /// `LITS 0 IDS 0`
    Lists,
    /// `IDS 0`
    Ids,
    /// `0`
    End,
}

/// A place in a line.
#[derive(Clone, Copy)]
pub(crate) enum Place {
    /// The beginning of the line, where its letter is expected.
    Letter,
    /// A space is expected, and then the given part.
    Space(Part),
    /// The given part is expected.
    Item(Part),
    /// A number at the start of the given part has begun. The second field is the value of its digits so far, or 0 if
    /// there are none.
    Digits(Part, u64),
    /// The LF is expected.
    Over,
}

/// Returns the largest number that a part may begin with.
fn limit(part: Part) -> u64
    ensures is { result ≡ limit_of part }
    ensures least { 9 ≤ result }
{
    match part {
        Part::FreshVar | Part::Clause | Part::Lists => Var::max_count() as u64,
        Part::InputId | Part::DerivedId | Part::RemovedId | Part::Ids | Part::End => u64::MAX,
    }
}

/// Returns the part that is expected after a number at the start of `part`.
fn next(part: Part) -> Part
    ensures { result ≡ next_of part }
{
    match part {
        Part::InputId | Part::Clause => Part::Clause,
        Part::DerivedId | Part::Lists => Part::Lists,
        Part::Ids => Part::Ids,
        Part::RemovedId | Part::FreshVar | Part::End => Part::End,
    }
}

/// Returns the place after `byte`, the letter of a line, or `None` if no line begins with `byte`.
fn following_letter(byte: u8) -> Option<Place>
    ensures { result ≡ letter_place byte }
{
    if byte == b'd' {
        return Some(Place::Space(Part::DerivedId));
    }
    if byte == b'x' {
        return Some(Place::Space(Part::RemovedId));
    }
    if byte == b'i' {
        return Some(Place::Space(Part::InputId));
    }
    if byte == b'f' {
        return Some(Place::Space(Part::Lists));
    }
    if byte == b'e' {
        return Some(Place::Space(Part::FreshVar));
    }
    None
}

/// Returns the place after a `0` at the start of a part, or `None` if the part can't start with `0`.
fn after_zero(part: Part) -> Option<Place>
    ensures { result ≡ zero_place part }
{
    match part {
        Part::Clause | Part::Ids | Part::End => Some(Place::Over),
        Part::Lists => Some(Place::Space(Part::Ids)),
        Part::InputId | Part::DerivedId | Part::RemovedId | Part::FreshVar => None,
    }
}

/// Returns the place after a `-` at the start of a part, or `None` if the part can't start with `-`.
fn after_sign(part: Part) -> Option<Place>
    ensures { result ≡ sign_place part }
{
    match part {
        Part::Clause | Part::Lists => Some(Place::Digits(part, 0)),
        _ => None,
    }
}

/// Returns the place after `byte`, the next byte of a number or the space after it, or `None` if no line can continue
/// with `byte`.
fn in_number(part: Part, number: u64, byte: u8) -> Option<Place>
    ensures leads { LeadsToPlace (Digits part number) (byte ∷ []) result }
    ensures reaches { ReachesPlace (Digits part number) (byte ∷ []) result }
{
    if byte == b' ' && number > 0 {
        return Some(Place::Item(next(part)));
    }
    let more = append_digit(number, byte, limit(part))?;
    Some(Place::Digits(part, more))
}

/// Returns the place after `byte`, the first byte of a part, or `None` if the part can't start with `byte`.
fn at_item(part: Part, byte: u8) -> Option<Place>
    ensures leads { LeadsToPlace (Item part) (byte ∷ []) result }
    ensures reaches { ReachesPlace (Item part) (byte ∷ []) result }
{
    if byte == b'0' {
        return after_zero(part);
    }
    if byte == b'-' {
        return after_sign(part);
    }
    match part {
        Part::End => None,
        _ => in_number(part, 0, byte),
    }
}

/// Returns the place after `byte`, the next byte of a line, or `None` if no line can continue with `byte`.
fn after_byte(place: Place, byte: u8) -> Option<Place>
    ensures leads { (byte ≡ 10 → ⊥) → LeadsToPlace place (byte ∷ []) result }
    ensures reaches { ReachesPlace place (byte ∷ []) result }
{
    match place {
        Place::Letter => following_letter(byte),
        Place::Space(part) => {
            if byte == b' ' {
                return Some(Place::Item(part));
            }
            None
        }
        Place::Item(part) => at_item(part, byte),
        Place::Digits(part, number) => in_number(part, number, byte),
        Place::Over => None,
    }
}

/// Returns the place after `bytes`, the next bytes of a line, or `None` if no line can continue with `bytes`.
pub(crate) fn following(place: Place, bytes: &[u8]) -> Option<Place>
    requires { HasNoLf bytes.now }
    ensures leads { LeadsToPlace place bytes.now result }
    ensures reaches { ReachesPlace place bytes.now result }
{
    let mut here = place;
    for i in 0..bytes.len() {
        here = after_byte(here, bytes[i])?;
    }
    Some(here)
}
