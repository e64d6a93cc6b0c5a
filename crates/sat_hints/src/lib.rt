//! Hint texts: proofs that can be checked without a search.
#![tactic(auto)]

mod active_clauses;
mod answer;
mod checking;
mod converting;
mod error;
mod guesses;
mod items;
pub mod laws;
mod line;
mod line_checking;
mod line_writer;
mod naming;
mod numbers;
mod prefixes;
mod present;
mod propagating;
mod reading;
mod uses;

pub use answer::{HintFault, HintVerdict, HintWhy};
pub use checking::check;
pub use converting::convert;
pub use error::HintError;
