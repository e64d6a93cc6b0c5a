//! The parameters of a search.
ghost use Rattle.std.specs.Prelude.{ℕ, ◌≡◌, true, false, None, Some, nat_le, OnOk, IfErr};
ghost use Rattle.sat_solver.specs.Configs.{defaults, is_decay, is_none_or, is_update_in_range, updated};

use crate::error::SolverError;

/// The parameters of a search. Decays are in thousandths.
#[derive(Clone, Copy, Debug, Drop, PartialEq, Eq)]
pub struct SolverConfig {
    /// The factor by which the activity of a variable decays from one conflict to the next: 500 to 999, 950 by default.
    pub vsids_decay: u32,
    /// The factor by which the activity of a clause decays from one conflict to the next: 500 to 999, 999 by default.
    pub clause_activity_decay: u32,
    /// Rounds between reductions of the clauses of tier Local: at least 1, 15000 by default.
    pub reduce_locals_interval: u64,
    /// Rounds between reductions of the clauses of tier Mid: at least 1, 10000 by default.
    pub reduce_mids_interval: u64,
    /// Rounds between restarts for each unit of the Luby sequence: at least 1, 128 by default.
    pub luby_restart_interval_scale: u64,
    /// The maximum number of rounds per `solve`: 2^64-1 by default. If it is 0, `solve` returns only answers that are
    /// already known.
    pub max_steps: u64,
}

impl Default for SolverConfig {
    fn default() -> SolverConfig
        ensures { result ≡ defaults }
    {
        SolverConfig {
            vsids_decay: 950,
            clause_activity_decay: 999,
            reduce_locals_interval: 15000,
            reduce_mids_interval: 10000,
            luby_restart_interval_scale: 128,
            max_steps: u64::MAX,
        }
    }
}

/// An update of the parameters. A field that is `None` leaves its parameter unchanged.
#[derive(Clone, Copy, Debug, Drop, PartialEq, Eq, Default)]
pub struct SolverConfigUpdate {
    pub vsids_decay: Option<u32>,
    pub clause_activity_decay: Option<u32>,
    pub reduce_locals_interval: Option<u64>,
    pub reduce_mids_interval: Option<u64>,
    pub luby_restart_interval_scale: Option<u64>,
    pub max_steps: Option<u64>,
}

/// Returns `true` if `change` is `None`, or a decay from 500 to 999.
fn is_valid_decay(change: Option<u32>) -> bool
    ensures { result ≡ is_none_or is_decay change }
{
    match change {
        None => true,
        Some(thousandths) => thousandths >= 500 && thousandths <= 999,
    }
}

/// Returns `true` if `change` is `None`, or at least 1.
fn is_valid_count(change: Option<u64>) -> bool
    ensures { result ≡ is_none_or (nat_le 1) change }
{
    match change {
        None => true,
        Some(count) => count >= 1,
    }
}

impl SolverConfigUpdate {
    /// Creates an update that changes nothing.
    pub fn new() -> SolverConfigUpdate
        ensures vsids { result.vsids_decay ≡ None }
        ensures clauses { result.clause_activity_decay ≡ None }
        ensures locals { result.reduce_locals_interval ≡ None }
        ensures mids { result.reduce_mids_interval ≡ None }
        ensures scale { result.luby_restart_interval_scale ≡ None }
        ensures steps { result.max_steps ≡ None }
    {
        SolverConfigUpdate {
            vsids_decay: None,
            clause_activity_decay: None,
            reduce_locals_interval: None,
            reduce_mids_interval: None,
            luby_restart_interval_scale: None,
            max_steps: None,
        }
    }

    /// Returns `true` if every field that is `Some` is in its range.
    fn is_in_range(&self) -> bool
        ensures { result ≡ is_update_in_range self.now }
    {
        is_valid_decay(self.vsids_decay)
            && is_valid_decay(self.clause_activity_decay)
            && is_valid_count(self.reduce_locals_interval)
            && is_valid_count(self.reduce_mids_interval)
            && is_valid_count(self.luby_restart_interval_scale)
    }

    /// Applies the update to `config`. If a field is out of its range, returns `OutOfRange` and changes nothing.
    pub fn apply(&self, config: &mut SolverConfig) -> Result<(), SolverError>
        ensures ok { OnOk result ((is_update_in_range self.now ≡ true) × (config.new ≡ updated self.now config.old)) }
        ensures err { IfErr result (λ e. (e ≡ SolverError.OutOfRange) × (is_update_in_range self.now ≡ false)
            × (config.new ≡ config.old)) }
    {
        if !self.is_in_range() {
            return Err(SolverError::OutOfRange);
        }
        *config = SolverConfig {
            vsids_decay: self.vsids_decay.unwrap_or(config.vsids_decay),
            clause_activity_decay: self
                .clause_activity_decay
                .unwrap_or(config.clause_activity_decay),
            reduce_locals_interval: self
                .reduce_locals_interval
                .unwrap_or(config.reduce_locals_interval),
            reduce_mids_interval: self
                .reduce_mids_interval
                .unwrap_or(config.reduce_mids_interval),
            luby_restart_interval_scale: self
                .luby_restart_interval_scale
                .unwrap_or(config.luby_restart_interval_scale),
            max_steps: self.max_steps.unwrap_or(config.max_steps),
        };
        Ok(())
    }
}
