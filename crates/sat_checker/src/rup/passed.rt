//! The notes on a walk over stored clauses: the clauses that the walk used.
ghost use Rattle.std.specs.Prelude.{◌≡◌, ◌++◌, ◌∷◌, [], None, Some, true, false};

use crate::rup::noted::Noted;
use sat_base::Lit;
use std::alloc::Global;
use std::marker::Model;

/// A literal, and the place of the clause that implied it.
#[derive(Clone, Copy)]
pub(crate) struct Reason {
    pub(crate) place: usize,
    pub(crate) lit: Lit,
}

/// The reasons in the order in which they were noted, and the place of the falsified clause, if there is one. In
/// contracts, the reasons are complete, even if memory ran out for a note.
#[derive(Drop)]
pub(crate) struct Passed {
    reasons: Vec<Reason>,
    conflict: Option<usize>,
    /// Whether the notes are unusable because no listener needs them, or because memory ran out for a note or for the
    /// literals from which the walk started.
    lost: bool,
    /// Whether no listener needs the notes.
    quiet: bool,
    noted: Noted,
}

impl Model for Passed {
    ghost use Rattle.std.specs.Prelude.{◌≡◌, false};
    ghost use Rattle.sat_checker.specs.inner.WalkNotes.{WalkNotes};

    ghost Value = { WalkNotes };

    ghost view = { λ s. record { reasons = s.noted.reasons; conflict = s.conflict; lost = s.lost } };

    ghost invariant = { λ s. s.lost ≡ false → s.reasons.items ≡ s.noted.reasons };
}

impl Passed {
    /// Creates notes that contain no reasons.
    pub fn new(alloc: Global) -> Passed
        ensures { result ≡ record { reasons = []; conflict = None; lost = false } }
    {
        Passed {
            reasons: Vec::new(alloc),
            conflict: None,
            lost: false,
            quiet: false,
            noted: Noted::new(),
        }
    }

    /// Sets whether a listener needs the notes from now on. If `listening` is false, no reasons are stored.
    #[inline(always)]
    pub fn listen(&mut self, listening: bool)
        ensures { self.new ≡ self.old }
    {
        self.quiet = !listening;
    }

    /// Removes all notes, but keeps the allocated memory.
    pub fn clear(&mut self)
        ensures { self.new ≡ record { reasons = []; conflict = None; lost = false } }
    {
        self.reasons.clear();
        self.conflict = None;
        self.lost = false;
        self.noted = Noted::new();
    }

    /// Notes that the clause at `place` implied `lit`.
    pub fn note(&mut self, place: usize, lit: Lit)
        ensures reasons { self.new.reasons ≡ self.old.reasons ++ (record { place = place; lit = lit }) ∷ [] }
        ensures conflict { self.new.conflict ≡ self.old.conflict }
    {
        self.noted = self.noted.and(place, lit.code());
        if self.quiet {
            self.lost = true;
            return;
        }
        if self.reasons.push(Reason { place, lit }).is_err() {
            self.lost = true;
        }
    }

    /// Notes that the clause at `place` was falsified.
    pub fn end_at(&mut self, place: usize)
        ensures { self.new ≡ record self.old { conflict = Some place } }
    {
        self.conflict = Some(place);
    }

    /// Records that the notes are unusable, because the literals from which the walk started are incomplete.
    pub fn lose(&mut self)
        ensures { self.new ≡ record self.old { lost = true } }
    {
        self.lost = true;
    }

    /// Returns `true` if the notes are unusable.
    pub fn is_lost(&self) -> bool
        ensures { result ≡ self.now.lost }
    {
        self.lost
    }

    /// Returns the place of the falsified clause, if there is one.
    pub fn conflict(&self) -> Option<usize>
        ensures { result ≡ self.now.conflict }
    {
        self.conflict
    }

    /// Returns the reasons as a slice. The notes must be usable.
    pub fn reasons(&self) -> &[Reason]
        requires { self.now.lost ≡ false }
        ensures { result.now ≡ self.now.reasons }
    {
        &self.reasons
    }
}
