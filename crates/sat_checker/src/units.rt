//! The stored units.
ghost use Rattle.std.specs.Prelude.{ℕ, ◌≡◌, ◌++◌, ◌∷◌, [], ◌+◌, ◌-◌, ◌*◌, ◌^◌, ◌<◌, ◌≤◌, ◌↔◌, true, false, length, map};
ghost use Rattle.std.specs.Prelude.{reverse, IfOk, IsTrue, OnOk, OnErr, filter, not, ◌==◌, if◌then◌else◌};
ghost use Rattle.sat_base.specs.values.Literals.{negated, variable};
ghost use Rattle.std.specs.List.{list_any};
ghost use Rattle.sat_checker.specs.LiteralSets.{is_among};
ghost use Rattle.sat_checker.specs.announcements.Needed.{satisfying_unit};
ghost use Rattle.sat_checker.specs.inner.LookCounts.{LooksOver};
ghost use Rattle.sat_checker.specs.inner.Marks.{NoRepeats};
ghost use Rattle.sat_checker.specs.inner.LitNumbers.{AreTrailPlaces};
ghost use Rattle.sat_checker.specs.inner.Reasons.{noted_length, ExplainsCheck};
ghost use Rattle.sat_checker.specs.Storing.{unit_id};
ghost use Rattle.sat_checker.specs.Stored.{Stored, unit_literals};
ghost use Rattle.sat_checker.specs.Accepts.{PassesByHashes};
ghost use Rattle.sat_checker.specs.Looks.{stored_literal_count};
ghost use Rattle.sat_checker.specs.inner.StoreView.{RepresentsClauses};
ghost use Rattle.sat_checker.specs.inner.InTurn.{OtherUnitsPassInTurn};
ghost use Rattle.sat_checker.specs.inner.AssumedRoom.{signed, with_room, RoomIsKept, HasClauseRoom, HasStoredRoom};

pub mod assigned;
pub(crate) mod lit_numbers;
pub(crate) mod roomy;
pub(crate) mod unit_order;
pub(crate) mod valuation;

use crate::looks::Looks;
use crate::rup::check_clause_with_hashes;
use crate::rup::in_turn::pass_in_turn;
use crate::rup::passed::Passed;
use crate::store::Store;
use crate::units::assigned::{Assigned, make_room_for};
use crate::units::lit_numbers::{LitNumbers, LitPlaces};
use crate::units::unit_order::UnitOrder;
use sat_base::{ClauseHash, Lit, Var};
use std::alloc::{AllocError, Global};
use std::marker::Model;

/// The stored units, which are assumed while a clause is being checked. In contracts, they are listed in the order in
/// which they were stored.
#[derive(Drop)]
pub(crate) struct Units {
    ids: LitNumbers,
    /// The positions of the units on the trail of assumed literals, so that a unit can be removed without a search.
    places: LitPlaces,
    assigned: Assigned,
    order: UnitOrder,
}

impl Model for Units {
    ghost use Rattle.sat_checker.specs.inner.UnitView.{UnitsAndRoom, UnitsInvariant};

    ghost Value = { UnitsAndRoom };

    ghost view = { λ s. record { units = s.order.units; room = s.assigned.room } };

    ghost invariant = { λ s. UnitsInvariant s.order.units s.ids s.places s.assigned.literals };
}

/// Removes the assumed literal `lit` from the trail. The newest assumed literal moves to its position.
fn take_out(assigned: &mut Assigned, places: &mut LitPlaces, lit: Lit)
    requires assumed { is_among assigned.old.literals lit ≡ true }
    requires placed { AreTrailPlaces places.old (reverse assigned.old.literals) }
    ensures assumed { (l : ℕ) → is_among assigned.new.literals l
        ≡ (if l == lit then false else is_among assigned.old.literals l) }
    ensures room { assigned.new.room ≡ assigned.old.room }
    ensures placed { AreTrailPlaces places.new (reverse assigned.new.literals) }
{
    let Some(place) = places.get(lit) else {
        return;
    };
    let trail = assigned.literals();
    let newest = trail[trail.len() - 1];
    places.put(newest, place);
    assigned.forget_at(place as usize);
}

impl Units {
    /// Creates an empty list of units.
    pub fn new(alloc: Global) -> Units
        ensures { result ≡ record { units = []; room = [] } }
    {
        Units {
            ids: LitNumbers::new(alloc),
            places: LitPlaces::new(alloc),
            assigned: Assigned::new(alloc),
            order: UnitOrder::new(),
        }
    }

    /// States that no literal is listed as a unit twice. Does nothing at run time.
    pub fn stand_once(&self)
        ensures { NoRepeats (map (λ u. u.literal) self.now.units) }
    {
        let _ = &self.order;
    }

    /// Returns `true` if the literal is a unit.
    #[inline(always)]
    pub fn is_unit(&self, lit: Lit) -> bool
        ensures { result ≡ is_among (map (λ u. u.literal) self.now.units) lit }
    {
        self.assigned.is_true(lit)
    }

    /// Returns `true` if a unit satisfies the clause.
    #[tactic(auto, using(crate::proofs::lemmas::state::Scanning::any_literal))]
    pub fn has_any(&self, clause: &[Lit]) -> bool
        ensures { result ≡ list_any (is_among (map (λ u. u.literal) self.now.units)) clause.now }
    {
        for lit in clause {
            if self.is_unit(*lit) {
                return true;
            }
        }
        false
    }

    /// Appends the unit `lit` with the id `id`. The literal `lit` must not already be a unit.
    pub fn push(&mut self, id: u64, lit: Lit) -> Result<(), AllocError>
        requires new { is_among (map (λ u. u.literal) self.old.units) lit ≡ false }
        requires id { id + 1 < 2 ^ 64 }
        ensures ok { OnOk result (self.new ≡ record {
          units = self.old.units ++ (record { id = id; literal = lit }) ∷ [];
          room = with_room lit self.old.room;
        }) }
        ensures err { OnErr result (self.new ≡ self.old) }
    {
        let place = self.assigned.len();
        if place >= u32::MAX as usize {
            return Err(AllocError);
        }
        self.ids.make_room(lit)?;
        self.places.make_room(lit)?;
        self.assigned.assume(lit)?;
        self.ids.put(lit, id);
        self.places.put(lit, place as u32);
        self.order = self.order.and(id, lit.code());
        Ok(())
    }

    /// Allows `more` more literals to have their entries in lists, rather than in trees.
    #[inline(always)]
    pub fn grant(&mut self, more: usize)
        ensures { self.new ≡ self.old }
    {
        self.ids.grant(more);
        self.places.grant(more);
        self.assigned.grant(more);
    }

    /// Makes room for the literals of a clause, and for their negations.
    pub fn make_room_for(&mut self, literals: &[Lit]) -> Result<(), AllocError>
        ensures room { OnOk result (HasClauseRoom self.new.room literals.now) }
        ensures units { self.new.units ≡ self.old.units }
        ensures stays { RoomIsKept self.old.room self.new.room }
    {
        make_room_for(&mut self.assigned, literals)
    }

    /// Returns the id of the unit `lit`, or `None` if `lit` is not a unit.
    pub fn id(&self, lit: Lit) -> Option<u64>
        ensures { result ≡ unit_id lit self.now.units }
    {
        self.ids.get(lit)
    }

    /// Returns the id of the first of the literals that is a unit, if there is one.
    #[tactic(auto, using(crate::proofs::lemmas::announcements::Listing::finding_true))]
    pub fn true_id(&self, literals: &[Lit]) -> Option<u64>
        ensures { result ≡ satisfying_unit literals.now self.now.units }
    {
        for lit in literals {
            if let Some(id) = self.id(*lit) {
                return Some(id);
            }
        }
        None
    }

    /// Removes the unit of a variable, if there is one. The running time does not depend on the number of units.
    pub fn forget(&mut self, var: Var)
        ensures { self.new
            ≡ record self.old { units = filter (λ u. not (variable u.literal == var)) self.old.units } }
    {
        self.forget_lit(var.lit(true));
        self.forget_lit(var.lit(false));
    }

    /// Removes `lit` from the units, if it is one.
    fn forget_lit(&mut self, lit: Lit)
        ensures { self.new ≡ record self.old { units = filter (λ u. not (u.literal == lit)) self.old.units } }
    {
        if !self.is_unit(lit) {
            return;
        }
        take_out(&mut self.assigned, &mut self.places, lit);
        self.ids.forget(lit);
        self.order = self.order.without(lit.code());
    }

    /// Returns `true` if the literals include the negation of a unit.
    pub fn are_contradicted(&self, literals: &[Lit]) -> bool
        ensures { result ≡ list_any (λ u. is_among literals.now (negated u.literal)) self.now.units }
    {
        self.has_any_negated(literals)
    }

    /// Returns `true` if one of the literals is the negation of a unit.
    #[tactic(auto, using(crate::proofs::lemmas::state::Scanning::any_literal))]
    fn has_any_negated(&self, literals: &[Lit]) -> bool
        ensures { result ≡ list_any (λ l. is_among (map (λ u. u.literal) self.now.units) (negated l)) literals.now }
    {
        for lit in literals {
            if self.is_unit(!*lit) {
                return true;
            }
        }
        false
    }

    /// Checks the clause that consists of `literals`, or of their negations if `negate` is true, by propagation from
    /// the units over the clauses with the hashes in `hashes`. Returns `true` if it passes. The units are unchanged.
    /// The notes in `passed` say which clauses were used.
    #[tactic(auto, using(crate::proofs::lemmas::store::Keeping::checking))]
    pub fn check_clause(
        &mut self,
        store: &Store,
        literals: &[Lit],
        negate: bool,
        hashes: &[ClauseHash],
        passed: &mut Passed,
        looks: &mut Looks,
    ) -> Result<bool, AllocError>
        ensures exact { IfOk result (λ passes. (f : Stored) → RepresentsClauses store.now f → self.old.units ≡ f.units
            → HasStoredRoom self.old.room f.clauses → IsTrue passes
            ↔ PassesByHashes f (signed negate literals.now) hashes.now) }
        ensures short { OnErr result ((f : Stored) → RepresentsClauses store.now f
            → HasStoredRoom self.old.room f.clauses → ⊥) }
        ensures units { self.new.units ≡ self.old.units }
        ensures stays { RoomIsKept self.old.room self.new.room }
        ensures looks { LooksOver (RepresentsClauses store.now)
            (λ f. length hashes.now * stored_literal_count f) looks.old looks.new }
        ensures explained { IfOk result (λ passes. IsTrue passes → passed.new.lost ≡ false
            → ExplainsCheck store.now.clauses passed.new (map (λ u. u.literal) self.old.units)
            (signed negate literals.now) hashes.now) }
        ensures read { IfOk result (λ _. noted_length store.now.clauses passed.new + looks.old ≤ looks.new) }
    {
        let units = self.assigned.len();
        self.assigned.allow(store.clauses.near_count());
        let answer = check_clause_with_hashes(
            &store.clauses,
            literals,
            negate,
            hashes,
            &mut self.assigned,
            passed,
            looks,
        );
        self.assigned.undo_to(units);
        answer
    }

    /// Returns `true` if every unit in `units` after the first passes, given the stored units and the units before it.
    /// The stored units are unchanged.
    pub fn pass_in_turn(
        &mut self,
        store: &Store,
        units: &[(Lit, ClauseHash)],
        passed: &mut Passed,
        looks: &mut Looks,
    ) -> Result<bool, AllocError>
        ensures exact { IfOk result (λ pass. (f : Stored) → RepresentsClauses store.now f
            → map (λ u. u.literal) self.old.units ≡ unit_literals f → HasStoredRoom self.old.room f.clauses
            → IsTrue pass ↔ OtherUnitsPassInTurn f units.now) }
        ensures short { OnErr result ((f : Stored) → RepresentsClauses store.now f
            → HasStoredRoom self.old.room f.clauses → ⊥) }
        ensures units { self.new.units ≡ self.old.units }
        ensures looks { LooksOver (RepresentsClauses store.now)
            (λ f. (length units.now - 1) * stored_literal_count f) looks.old looks.new }
    {
        let count = self.assigned.len();
        let answer = pass_in_turn(store, units, &mut self.assigned, passed, looks);
        self.assigned.undo_to(count);
        answer
    }
}
