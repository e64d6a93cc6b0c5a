//! Reading the line at the start of a slice of bytes.
ghost use Rattle.std.specs.Prelude.{◌≡◌, ◌≤◌, ◌+◌, ◌*◌, ◌++◌, List, ℕ, codes, length, vec_capacity, MatchOption, OnOk};
ghost use Rattle.std.specs.Prelude.{[]};
ghost use Rattle.sat_base.specs.dimacs.DimacsText.{number_text};
ghost use Rattle.sat_hints.specs.Lines.{id_text};
ghost use Rattle.sat_hints.specs.inner.LineReading.{BeginsWithBothLists, BeginsWithNoLine, BeginsWithLiteralList};
ghost use Rattle.sat_hints.specs.inner.LineReading.{BeginsWithWords};
ghost use Rattle.sat_hints.specs.inner.LineReading.{IsId, IsLiteralCode, BeginsWithHintLine, line_of_view, line_with};
ghost use Rattle.sat_hints.specs.inner.LineRoom.{HasListRoom, KeepsListRoom};

use crate::line::HintLine;
use crate::numbers::{read_id, read_literal, read_variable};
use sat_base::{Lit, Var, take_text};
use std::alloc::{AllocError, Global};

/// The lists of the current line. Their memory is reused, and reserved before a line is read, so reading a line does
/// not allocate.
#[derive(Drop)]
pub(crate) struct Lists {
    literals: Vec<Lit>,
    ids: Vec<u64>,
}

/// A line without its lists.
#[derive(Clone, Copy)]
pub(crate) enum Head {
    Input { id: u64 },
    Derived { id: u64 },
    Removed { id: u64 },
    Core,
    Fresh { var: Var },
}

/// Reads literals into `literals`, which must have capacity for them, as long as the bytes begin with a literal.
/// Returns the remaining bytes.
fn read_literals<'a>(bytes: &'a [u8], literals: &mut Vec<Lit>) -> &'a [u8]
    requires { length bytes.now ≤ 2 * vec_capacity literals.old + 1 }
    ensures words { BeginsWithWords number_text IsLiteralCode bytes.now literals.new.items result.now }
    ensures capacity { vec_capacity literals.new ≡ vec_capacity literals.old }
{
    literals.clear();
    let mut rest = bytes;
    while let Some(found) = read_literal(rest) {
        let (literal, following) = found;
        literals.push_reserved(literal);
        rest = following;
    }
    rest
}

/// Reads ids into `ids`, which must have capacity for them, as long as the bytes begin with an ID. Returns the
/// remaining bytes.
fn read_ids<'a>(bytes: &'a [u8], ids: &mut Vec<u64>) -> &'a [u8]
    requires { length bytes.now ≤ 2 * vec_capacity ids.old + 1 }
    ensures words { BeginsWithWords id_text IsId bytes.now ids.new.items result.now }
    ensures capacity { vec_capacity ids.new ≡ vec_capacity ids.old }
{
    ids.clear();
    let mut rest = bytes;
    while let Some(found) = read_id(rest) {
        let (id, following) = found;
        ids.push_reserved(id);
        rest = following;
    }
    rest
}

impl Lists {
    /// Returns empty lists. Never allocates.
    pub(crate) fn new(alloc: Global) -> Lists
        ensures literals { result.literals.items ≡ [] }
        ensures ids { result.ids.items ≡ [] }
    {
        Lists {
            literals: Vec::new(alloc),
            ids: Vec::new(alloc),
        }
    }

    /// Returns the line with `head` and the stored lists.
    pub(crate) fn line(&self, head: Head) -> HintLine<'_>
        ensures { line_of_view result ≡ line_with head self.now.literals.items self.now.ids.items }
    {
        let literals = self.literals.as_slice();
        let ids = self.ids.as_slice();
        match head {
            Head::Input { id } => HintLine::Input {
                id,
                clause: literals,
            },
            Head::Derived { id } => HintLine::Derived {
                id,
                clause: literals,
                ids,
            },
            Head::Removed { id } => HintLine::Removed { id },
            Head::Core => HintLine::Core {
                core: literals,
                ids,
            },
            Head::Fresh { var } => HintLine::Fresh { var },
        }
    }

    /// Reserves memory for the lists of a line of at most `bytes` bytes. Every item of a list takes at least two bytes.
    pub(crate) fn make_room(&mut self, bytes: usize) -> Result<(), AllocError>
        ensures { OnOk result (HasListRoom self.new bytes) }
    {
        self.literals.clear();
        self.ids.clear();
        self.literals.reserve(bytes / 2)?;
        self.ids.reserve(bytes / 2)
    }

    /// Reads `LITS 0` and an LF. Returns the remaining bytes, or `None` if the bytes begin differently.
    fn read_one<'a>(&mut self, bytes: &'a [u8]) -> Option<&'a [u8]>
        requires { HasListRoom self.old (length bytes.now) }
        ensures list { MatchOption result
            ((ls : List ℕ) (tail : List ℕ) → BeginsWithLiteralList bytes.now ls tail → ⊥)
            (λ rest. BeginsWithLiteralList bytes.now self.new.literals.items rest.now) }
        ensures room { KeepsListRoom self.old self.new }
    {
        let rest = read_literals(bytes, &mut self.literals);
        take_text(rest, b"0\n")
    }

    /// Reads `LITS 0 IDS 0` and an LF. Returns the remaining bytes, or `None` if the bytes begin differently.
    fn read_both<'a>(&mut self, bytes: &'a [u8]) -> Option<&'a [u8]>
        requires { HasListRoom self.old (length bytes.now) }
        ensures lists { MatchOption result
            ((ls : List ℕ) (ids : List ℕ) (tail : List ℕ) → BeginsWithBothLists bytes.now ls ids tail → ⊥)
            (λ rest. BeginsWithBothLists bytes.now self.new.literals.items self.new.ids.items rest.now) }
        ensures room { KeepsListRoom self.old self.new }
    {
        let rest = read_literals(bytes, &mut self.literals);
        let Some(following) = take_text(rest, b"0 ") else {
            return None;
        };
        let rest = read_ids(following, &mut self.ids);
        take_text(rest, b"0\n")
    }

    /// Reads the rest of an `i` line, after `i `. Returns the line's head and the remaining bytes.
    fn read_input<'a>(&mut self, bytes: &'a [u8]) -> Option<(Head, &'a [u8])>
        requires { HasListRoom self.old (length bytes.now) }
        ensures line { MatchOption result (BeginsWithNoLine (codes "i " ++ bytes.now))
            (λ x. BeginsWithHintLine (codes "i " ++ bytes.now) (line_with x.0 self.new.literals.items self.new.ids.items) x.1.now) }
        ensures room { KeepsListRoom self.old self.new }
    {
        let Some(found) = read_id(bytes) else {
            return None;
        };
        let (id, following) = found;
        match self.read_one(following) {
            Some(rest) => Some((Head::Input { id }, rest)),
            None => None,
        }
    }

    /// Reads the rest of a `d` line, after `d `. Returns the line's head and the remaining bytes.
    fn read_derived<'a>(&mut self, bytes: &'a [u8]) -> Option<(Head, &'a [u8])>
        requires { HasListRoom self.old (length bytes.now) }
        ensures line { MatchOption result (BeginsWithNoLine (codes "d " ++ bytes.now))
            (λ x. BeginsWithHintLine (codes "d " ++ bytes.now) (line_with x.0 self.new.literals.items self.new.ids.items) x.1.now) }
        ensures room { KeepsListRoom self.old self.new }
    {
        let Some(found) = read_id(bytes) else {
            return None;
        };
        let (id, following) = found;
        match self.read_both(following) {
            Some(rest) => Some((Head::Derived { id }, rest)),
            None => None,
        }
    }

    /// Reads the rest of an `f` line, after `f `. Returns the line's head and the remaining bytes.
    fn read_core<'a>(&mut self, bytes: &'a [u8]) -> Option<(Head, &'a [u8])>
        requires { HasListRoom self.old (length bytes.now) }
        ensures line { MatchOption result (BeginsWithNoLine (codes "f " ++ bytes.now))
            (λ x. BeginsWithHintLine (codes "f " ++ bytes.now) (line_with x.0 self.new.literals.items self.new.ids.items) x.1.now) }
        ensures room { KeepsListRoom self.old self.new }
    {
        match self.read_both(bytes) {
            Some(rest) => Some((Head::Core, rest)),
            None => None,
        }
    }

    /// Reads the line at the start of the bytes, including its LF, and stores its lists. Returns the line's head and
    /// the remaining bytes, or `None` if the bytes do not begin with a line. There must be room for the lists.
    pub(crate) fn read_line<'a>(&mut self, bytes: &'a [u8]) -> Option<(Head, &'a [u8])>
        requires { HasListRoom self.old (length bytes.now) }
        ensures line { MatchOption result (BeginsWithNoLine (bytes.now))
            (λ x. BeginsWithHintLine (bytes.now) (line_with x.0 self.new.literals.items self.new.ids.items) x.1.now) }
        ensures room { KeepsListRoom self.old self.new }
    {
        if let Some(rest) = take_text(bytes, b"d ") {
            return self.read_derived(rest);
        }
        if let Some(rest) = take_text(bytes, b"x ") {
            return read_removed(rest);
        }
        if let Some(rest) = take_text(bytes, b"i ") {
            return self.read_input(rest);
        }
        if let Some(rest) = take_text(bytes, b"f ") {
            return self.read_core(rest);
        }
        if let Some(rest) = take_text(bytes, b"e ") {
            return read_fresh(rest);
        }
        None
    }
}

/// Reads the rest of an `x` line, after `x `. Returns the line's head and the remaining bytes.
fn read_removed(bytes: &[u8]) -> Option<(Head, &[u8])>
    ensures { MatchOption result (BeginsWithNoLine (codes "x " ++ bytes.now))
        (λ x. (ls : List ℕ) (ids : List ℕ) → BeginsWithHintLine (codes "x " ++ bytes.now) (line_with x.0 ls ids) x.1.now) }
{
    let (id, following) = read_id(bytes)?;
    let rest = take_text(following, b"0\n")?;
    Some((Head::Removed { id }, rest))
}

/// Reads the rest of an `e` line, after `e `. Returns the line's head and the remaining bytes.
fn read_fresh(bytes: &[u8]) -> Option<(Head, &[u8])>
    ensures { MatchOption result (BeginsWithNoLine (codes "e " ++ bytes.now))
        (λ x. (ls : List ℕ) (ids : List ℕ) → BeginsWithHintLine (codes "e " ++ bytes.now) (line_with x.0 ls ids) x.1.now) }
{
    let (index, following) = read_variable(bytes)?;
    let rest = take_text(following, b"0\n")?;
    let var = Var::from_index(index);
    Some((Head::Fresh { var }, rest))
}
