//! The connection between a solver that writes a proof and the checker that reads it.
pub mod fit_laws;
pub mod history;
pub mod laws;
pub mod roll;
pub mod trail_laws;
