//! Long clauses in a common buffer, each of which is a header of three words, followed by the literals.
pub mod alloc;
pub mod edit;
pub mod header;
pub mod tier;
pub mod view;
