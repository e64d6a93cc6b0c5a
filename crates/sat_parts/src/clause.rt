//! The long clauses: their list, activities, garbage collection and reductions.
pub mod activity;
pub mod db;
pub mod filter;
pub mod gc;
pub mod iter;
pub mod reduce;
