//! Internal functions and types of the solver, for tests of them. Callers use `facade::Solver`.

pub use crate::context::{Context, Search, new_search};
pub use crate::load::literals::MappedLits;
pub use crate::proof::drat::put_step;
pub use crate::proof::{Proof, ProofError};
pub use crate::schedule::restarts::Restarts;
pub use crate::schedule::search;
pub use crate::solver::load::{Loading, add_clause_to_search};
pub use crate::variables::Variables;
pub use crate::variables::refuse::leftmost_witness;
