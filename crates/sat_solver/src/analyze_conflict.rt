//! Conflict analysis: finds the clause to learn from a conflict, or assumptions that contradict the clauses.
pub(crate) mod adding;
pub mod analyze;
pub mod laws;
pub mod learn;
pub(crate) mod lists;
pub mod resolve;
pub mod state;

pub use crate::assumptions::analyze::analyze_assumption;
pub use analyze::analyze_conflict;
pub use learn::learn_from_conflict;
pub use state::AnalyzeConflict;
