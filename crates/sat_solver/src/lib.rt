//! An incremental CDCL solver that answers under assumptions and writes a proof.
#![tactic(auto)]

mod analyze_conflict;
mod assumptions;
mod cdcl;
mod clause;
pub mod config;
mod context;
mod decision;
pub mod error;
pub mod facade;
pub mod inner;
mod load;
mod minimize;
mod model;
pub mod progress;
mod proof;
mod schedule;
mod session;
mod solver;
mod state;
mod unit_simplify;
mod variables;

pub use config::{SolverConfig, SolverConfigUpdate};
pub use error::SolverError;
pub use facade::Solver;
pub use progress::Progress;
pub use proof::format::ProofFormat;
pub use solver::proof::ReturnedParts;
pub use state::SatState;
