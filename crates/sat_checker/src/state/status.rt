//! What is recorded besides clauses, units and variables.
ghost use Rattle.std.specs.Prelude.{◌≡◌, ◌+◌, ◌<◌, ◌≤◌, ◌^◌, IfOk, OnErr, MatchResult, true, if◌then◌else◌};
ghost use Rattle.sat_checker.specs.Stored.{nothing_stored};
ghost use Rattle.sat_checker.specs.Storing.{first_conflict};
ghost use Rattle.sat_checker.specs.inner.FormulaView.{status_in_code, status_of};
ghost use Rattle.sat_checker.specs.declared.store.StoreError.TheVariants.{CounterEnd};

use crate::store::StoreError;
use sat_base::Lit;

/// The irredundant clause that was stored last, with its id: none yet, an empty clause, a unit, or a longer clause. For
/// a unit, the literal is recorded too, so that the unit can be found without a search.
#[derive(Clone, Copy)]
pub(crate) enum LastClause {
    NoneYet,
    Empty(u64),
    Single(u64, Lit),
    Long(u64),
}

/// What is recorded about the stored formula.
#[derive(Clone, Copy)]
pub(crate) struct Status {
    pub(crate) unsat: bool,
    /// The ids of a unit and of a unit that contradicts it, until the empty clause of their conflict has an id.
    pub(crate) conflict: Option<(u64, u64)>,
    pub(crate) last: LastClause,
    pub(crate) next_id: u64,
    pub(crate) ended: bool,
    pub(crate) var_deleted: bool,
}

/// What the checker can still report after a later step has failed.
#[derive(Clone, Copy)]
pub(crate) struct Records {
    pub(crate) unsat: bool,
    pub(crate) ended: bool,
    pub(crate) var_deleted: bool,
}

impl Status {
    /// Creates a status in which nothing is recorded.
    pub fn new() -> Status
        ensures { status_in_code result ≡ status_of nothing_stored }
    {
        Status {
            unsat: false,
            conflict: None,
            last: LastClause::NoneYet,
            next_id: 0,
            ended: false,
            var_deleted: false,
        }
    }

    /// Returns what the checker can still report after a later step has failed.
    #[inline(always)]
    pub fn records(&self) -> Records
        ensures { (result.unsat ≡ self.now.unsat) × (result.ended ≡ self.now.ended)
            × (result.var_deleted ≡ self.now.var_deleted) }
    {
        Records {
            unsat: self.unsat,
            ended: self.ended,
            var_deleted: self.var_deleted,
        }
    }

    /// Returns the next id, and advances the id counter. The last id is 2^64-2.
    pub fn take_id(&mut self) -> Result<u64, StoreError>
        ensures taken { MatchResult result
            (λ id. (id ≡ self.old.next_id) × (self.new ≡ record self.old { next_id = self.old.next_id + 1 }))
            (λ e. (e ≡ CounterEnd) × (2 ^ 64 ≤ self.old.next_id + 1)) }
        ensures room { IfOk result (λ id. id + 1 < 2 ^ 64) }
        ensures same { OnErr result (self.new ≡ self.old) }
    {
        let id = self.next_id;
        if id == u64::MAX {
            return Err(StoreError::CounterEnd);
        }
        self.next_id = id + 1;
        Ok(id)
    }

    /// Advances the id counter if `needed` is true.
    pub fn take_id_if(&mut self, needed: bool) -> Result<(), StoreError>
        ensures { MatchResult result
            (λ _. self.new ≡ record self.old { next_id = (if needed then self.old.next_id + 1 else self.old.next_id) })
            (λ e. (e ≡ CounterEnd) × (needed ≡ true) × (2 ^ 64 ≤ self.old.next_id + 1)) }
    {
        if !needed {
            return Ok(());
        }
        self.take_id()?;
        Ok(())
    }

    /// Records the last irredundant clause stored, unless `redundant` is true.
    pub fn note_last(&mut self, redundant: bool, last: LastClause)
        ensures { self.new ≡ (if redundant then self.old else record self.old { last = last }) }
    {
        if !redundant {
            self.last = last;
        }
    }

    /// Records the conflict between the unit with the id `stored`, if any, and the unit with the id `id`, unless a unit
    /// conflict is already pending.
    pub fn record_conflict(&mut self, stored: Option<u64>, id: u64)
        ensures { self.new ≡ record self.old { conflict = first_conflict self.old.conflict stored id } }
    {
        if self.conflict.is_some() {
            return;
        }
        if let Some(stored) = stored {
            self.conflict = Some((stored, id));
        }
    }
}
