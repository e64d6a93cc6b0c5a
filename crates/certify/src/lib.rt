//! Answers scripts of clauses, asks and names with a certificate, and confirms such answers with a proof checker.
#![tactic(auto)]

pub mod answers;
pub mod confirm;
pub mod fault;
pub mod headline;
pub mod laws;
pub mod program;
pub mod refusals;
pub mod run;
pub mod script;
pub mod summary;
pub mod verdict;
