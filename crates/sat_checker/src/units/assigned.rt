//! The assumed literals, and the literals for which there is room, with a mark for each literal code.
ghost use Rattle.std.specs.Prelude.{◌≡◌, ◌+◌, ◌-◌, ◌<◌, ◌≤◌, List, [], ◌∷◌, drop, length, OnOk, OnErr, IfSome};
ghost use Rattle.std.specs.Prelude.{MatchBool, true, false, reverse, ℕ, ◌==◌, get_or, if◌then◌else◌, ◌&&◌, not};
ghost use Rattle.sat_checker.specs.inner.Marks.{is_assumed, mark_at, AreMarksByCode, NoRepeats, IsSwapRemoved};
ghost use Rattle.sat_checker.specs.inner.AssumedRoom.{with_room, AgreeWithinRoom, AssumesOnce, HasClauseRoom};
ghost use Rattle.sat_checker.specs.inner.AssumedRoom.{RoomIsKept};
ghost use Rattle.sat_checker.specs.inner.WalkResults.{AssumesMore};
ghost use Rattle.sat_base.specs.values.Tables.{HasPlaceFor, KeepsRoom};
ghost use Rattle.sat_checker.specs.LiteralSets.{is_among};
ghost use Rattle.sat_base.specs.values.Literals.{negated};
ghost use Rattle.sat_checker.specs.ClauseStates.{clause_state, clause_state_of};

use crate::units::roomy::Roomy;
use sat_base::{Lit, Table};
use std::alloc::{AllocError, Global};
use std::marker::Model;

/// The mark of a literal: whether there is room for it, and whether it is assumed.
#[derive(Clone, Copy)]
pub(crate) enum Mark {
    NoRoom,
    Room,
    Assumed,
}

/// The assumed literals, without repeats, and the literals for which there is room. In contracts, the newest assumed
/// literal comes first.
#[derive(Drop)]
pub struct Assigned {
    marks: Table<Mark>,
    trail: Vec<Lit>,
    /// The number of literals for which there is room.
    count: usize,
    room: Roomy,
}

impl Model for Assigned {
    ghost use Rattle.std.specs.Prelude.{reverse, vec_capacity};
    ghost use Rattle.sat_checker.specs.inner.AssumedRoom.{LiteralsAndRoom};
    ghost use Rattle.sat_checker.specs.inner.Marks.{AreMarks, CountsRoom};

    ghost Value = { LiteralsAndRoom };

    ghost view = { λ s. record { literals = reverse s.trail.items; room = s.room.literals } };

    ghost invariant = { λ s. AreMarks s.marks (reverse s.trail.items) s.room.literals
        × CountsRoom s.count (vec_capacity s.trail) s.room.literals };
}

impl Assigned {
    /// Creates a value with no assumed literals and no room for any.
    pub fn new(alloc: Global) -> Assigned
        ensures { result ≡ record { literals = []; room = [] } }
    {
        Assigned {
            marks: Table::new(alloc),
            trail: Vec::new(alloc),
            count: 0,
            room: Roomy::new(),
        }
    }

    /// Returns the number of assumed literals.
    pub fn len(&self) -> usize
        ensures { result ≡ length self.now.literals }
    {
        self.trail.len()
    }

    /// Returns the assumed literals as a slice, oldest first.
    pub fn literals(&self) -> &[Lit]
        ensures lent { result.now ≡ reverse self.now.literals }
        ensures once { NoRepeats result.now }
    {
        self.trail.as_slice()
    }

    /// States that there is room for every assumed literal, and for the negation of every literal for which there is
    /// room. Does nothing at run time.
    pub fn are_in_room(&self)
        ensures paired { (l : ℕ) → is_among self.now.room l ≡ is_among self.now.room (negated l) }
        ensures stand { (l : ℕ) → is_among self.now.literals l ≡ true → is_among self.now.room l ≡ true }
    {
        let _ = &self.room;
    }

    /// Allows at least `limit` marks to be in a list, rather than in a tree. The list is faster.
    pub fn allow(&mut self, limit: usize)
        ensures { self.new ≡ self.old }
    {
        self.marks.allow(limit);
    }

    /// Allows `more` more marks to be in a list, rather than in a tree. The list is faster.
    #[inline(always)]
    pub fn grant(&mut self, more: usize)
        ensures { self.new ≡ self.old }
    {
        self.marks.grant(more);
    }

    /// Returns the marks of literals with small codes as a slice, in order of their codes.
    #[inline(always)]
    fn near(&self) -> &[Mark]
        ensures { AreMarksByCode result.now self.now.literals }
    {
        self.marks.near()
    }

    /// Returns `true` if a literal is assumed.
    #[inline(always)]
    pub fn is_true(&self, lit: Lit) -> bool
        ensures { result ≡ is_among self.now.literals lit }
    {
        match self.marks.get(lit.code(), Mark::NoRoom) {
            Mark::Assumed => true,
            Mark::Room | Mark::NoRoom => false,
        }
    }

    /// Returns `true` if there is room for a literal.
    #[inline(always)]
    pub fn has_room(&self, lit: Lit) -> bool
        ensures { result ≡ is_among self.now.room lit }
    {
        match self.marks.get(lit.code(), Mark::NoRoom) {
            Mark::Assumed | Mark::Room => true,
            Mark::NoRoom => false,
        }
    }

    /// Makes room for a literal, and for its negation.
    #[inline(always)]
    pub fn make_room(&mut self, lit: Lit) -> Result<(), AllocError>
        ensures ok { OnOk result (self.new ≡ record self.old { room = with_room lit self.old.room }) }
        ensures err { OnErr result (self.new ≡ self.old) }
        ensures short { OnErr result (is_among self.old.room lit ≡ false) }
    {
        if self.has_room(lit) {
            return Ok(());
        }
        self.make_new_room(lit)
    }

    /// Makes room for a literal and for its negation. There must not already be room for the literal.
    #[inline(never)]
    fn make_new_room(&mut self, lit: Lit) -> Result<(), AllocError>
        requires { is_among self.old.room lit ≡ false }
        ensures ok { OnOk result (self.new ≡ record self.old { room = lit ∷ negated lit ∷ self.old.room }) }
        ensures err { OnErr result (self.new ≡ self.old) }
    {
        let other = !lit;
        self.trail.reserve(self.count + 2 - self.trail.len())?;
        self.marks.make_room(lit.code(), Mark::NoRoom)?;
        self.marks.make_room(other.code(), Mark::NoRoom)?;
        self.marks.put(other.code(), Mark::Room);
        self.marks.put(lit.code(), Mark::Room);
        self.count += 2;
        let room = self.room.and(other.code());
        self.room = room.and(lit.code());
        Ok(())
    }

    /// Assumes a literal, which must not already be assumed. Allocates only if there is no room for the literal.
    #[inline(always)]
    pub fn assume(&mut self, lit: Lit) -> Result<(), AllocError>
        requires { is_among self.old.literals lit ≡ false }
        ensures ok { OnOk result (self.new ≡ record {
          literals = lit ∷ self.old.literals;
          room = with_room lit self.old.room;
        }) }
        ensures err { OnErr result (self.new ≡ self.old) }
        ensures short { OnErr result (is_among self.old.room lit ≡ false) }
    {
        self.make_room(lit)?;
        self.assume_in_room(lit);
        Ok(())
    }

    /// Assumes a literal, unless it is already assumed. Allocates only if there is no room for the literal.
    #[inline(always)]
    pub fn assume_once(&mut self, lit: Lit) -> Result<(), AllocError>
        ensures ok { OnOk result (AssumesOnce lit self.old self.new) }
        ensures err { OnErr result (self.new ≡ self.old) }
        ensures short { OnErr result (is_among self.old.room lit ≡ false) }
    {
        match self.marks.get(lit.code(), Mark::NoRoom) {
            Mark::Assumed => Ok(()),
            Mark::Room => {
                self.assume_in_room(lit);
                Ok(())
            }
            Mark::NoRoom => {
                self.make_new_room(lit)?;
                self.assume_in_room(lit);
                Ok(())
            }
        }
    }

    /// Assumes a literal if there is room for it and it isn't already assumed. Returns `true` if this assumed it.
    #[inline(always)]
    pub fn assume_new(&mut self, lit: Lit) -> bool
        ensures { MatchBool result (self.new ≡ record self.old { literals = lit ∷ self.old.literals })
            (self.new ≡ self.old) }
    {
        match self.marks.get(lit.code(), Mark::NoRoom) {
            Mark::Room => {
                self.assume_in_room(lit);
                true
            }
            Mark::Assumed | Mark::NoRoom => false,
        }
    }

    /// Assumes a literal. There must be room for the literal, and it must not already be assumed.
    #[inline(always)]
    pub fn assume_in_room(&mut self, lit: Lit)
        requires new { is_among self.old.literals lit ≡ false }
        requires room { is_among self.old.room lit ≡ true }
        ensures { self.new ≡ record self.old { literals = lit ∷ self.old.literals } }
    {
        self.trail.push_reserved(lit);
        self.marks.put(lit.code(), Mark::Assumed);
    }

    /// Removes the assumed literal at position `place`, where the oldest literal is at position 0. The newest literal
    /// moves to this position.
    pub fn forget_at(&mut self, place: usize)
        requires { place < length self.old.literals }
        ensures forgotten { (l : ℕ) → is_among self.new.literals l
            ≡ (if l == get_or (reverse self.old.literals) place 0 then false else is_among self.old.literals l) }
        ensures moved { IsSwapRemoved place (reverse self.old.literals) (reverse self.new.literals) }
        ensures room { self.new.room ≡ self.old.room }
    {
        let lit = self.trail.swap_remove(place);
        unmark(&mut self.marks, lit);
    }

    /// Removes the newest assumed literals, until `left` literals remain.
    pub fn undo_to(&mut self, left: usize)
        requires { left ≤ length self.old.literals }
        ensures { self.new
            ≡ record self.old { literals = drop (length self.old.literals - left) self.old.literals } }
    {
        unmark_all(&mut self.marks, &self.trail[left..]);
        self.trail.truncate(left);
    }
}

/// Makes room for the literals of a clause, and for their negations.
pub fn make_room_for(assigned: &mut Assigned, clause: &[Lit]) -> Result<(), AllocError>
    ensures room { OnOk result (HasClauseRoom assigned.new.room clause.now) }
    ensures short { OnErr result (HasClauseRoom assigned.old.room clause.now → ⊥) }
    ensures literals { assigned.new.literals ≡ assigned.old.literals }
    ensures stays { RoomIsKept assigned.old.room assigned.new.room }
{
    for lit in clause {
        assigned.make_room(*lit)?;
        assigned.are_in_room();
    }
    Ok(())
}

/// Assumes a literal if there is room for it and it isn't already assumed. Never allocates.
pub fn assume_if_roomy(assigned: &mut Assigned, lit: Lit)
    ensures literals { assigned.new.literals
        ≡ (if is_among assigned.old.room lit && not (is_among assigned.old.literals lit)
        then lit ∷ assigned.old.literals else assigned.old.literals) }
    ensures room { assigned.new.room ≡ assigned.old.room }
    ensures agrees { AgreeWithinRoom assigned.old.room assigned.new.literals (lit ∷ assigned.old.literals) }
    ensures extends { AssumesMore assigned.old assigned.new }
{
    if !assigned.has_room(lit) {
        return;
    }
    if assigned.is_true(lit) {
        return;
    }
    assigned.assume_in_room(lit);
}

/// Marks literals as not assumed. There is still room for the literals.
fn unmark_all(marks: &mut Table<Mark>, literals: &[Lit])
    requires { (l : ℕ) → is_among literals.now l ≡ true → HasPlaceFor marks.old l }
    ensures { (l : ℕ) → mark_at marks.new l ≡ (if is_among literals.now l then Mark.Room else mark_at marks.old l) }
{
    for lit in literals {
        unmark(marks, *lit);
    }
}

/// Marks a literal as not assumed. There is still room for the literal.
fn unmark(marks: &mut Table<Mark>, lit: Lit)
    requires { HasPlaceFor marks.old lit }
    ensures set { (l : ℕ) → mark_at marks.new l ≡ (if l == lit then Mark.Room else mark_at marks.old l) }
    ensures places { KeepsRoom marks.old marks.new }
{
    marks.put(lit.code(), Mark::Room);
}

/// The state of a clause under the assumed literals.
#[derive(Clone, Copy)]
pub enum Look {
    /// All literals of the clause are false.
    Falsified,
    /// Only the given literal isn't false, and this literal isn't assumed.
    Opens(Lit),
    /// A literal of the clause is assumed, or at least two literals aren't false.
    Rests,
}

/// Returns the state of a clause under the assumed literals.
#[inline(always)]
pub fn look_at(assigned: &Assigned, clause: &[Lit]) -> Look
    ensures { clause_state_of result ≡ clause_state assigned.now.literals clause.now }
{
    // Counts the literals that aren't false, and adds their codes: a branch for each literal would be mispredicted.
    let near = assigned.near();
    let mut count: usize = 0;
    let mut codes: usize = 0;
    for lit in clause {
        let code = lit.code();
        let other = (!*lit).code();
        if other >= near.len() {
            return look_far(assigned, clause);
        }
        let is_open = !is_assumed(near[other]);
        let one = number_if(is_open, 1);
        let added = number_if(is_open, code);
        count += one;
        codes = codes.wrapping_add(added);
    }
    if count == 0 {
        return Look::Falsified;
    }
    if count > 1 {
        return Look::Rests;
    }
    let lit = Lit::from_code(codes);
    if assigned.is_true(lit) {
        return Look::Rests;
    }
    Look::Opens(lit)
}

/// Returns `number` if `counts` is true, and otherwise 0, without a branch.
#[inline(always)]
fn number_if(counts: bool, number: usize) -> usize
    ensures { result ≡ (if counts then number else 0) }
{
    usize::from(counts).wrapping_mul(number)
}

/// Returns `true` if a mark says that the literal is assumed.
#[inline(always)]
fn is_assumed(mark: Mark) -> bool
    ensures { result ≡ is_assumed mark }
{
    match mark {
        Mark::Assumed => true,
        Mark::Room | Mark::NoRoom => false,
    }
}

/// Returns what `look_at` returns, even for literals with large codes.
#[inline(never)]
fn look_far(assigned: &Assigned, clause: &[Lit]) -> Look
    ensures { clause_state_of result ≡ clause_state assigned.now.literals clause.now }
{
    let mut open = None;
    for lit in clause {
        if !assigned.is_true(!*lit) {
            if open.is_some() {
                return Look::Rests;
            }
            open = Some(*lit);
        }
    }
    let Some(lit) = open else {
        return Look::Falsified;
    };
    if assigned.is_true(lit) {
        return Look::Rests;
    }
    Look::Opens(lit)
}
