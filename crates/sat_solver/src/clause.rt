//! Learned clauses: their tiers, activities and reductions.
pub mod activity;
pub mod assess;
pub mod reduce;
