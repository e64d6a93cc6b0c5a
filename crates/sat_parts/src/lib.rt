//! Unit propagation, the data that it works on (values, trail, reasons, clauses), and a struct that holds all of this.
#![tactic(auto)]

pub mod binary;
pub mod clause;
pub mod glue;
pub mod laws;
pub mod parts;
pub mod prop;

pub use binary::BinaryClauses;
pub use clause::activity::{ClauseActivity, bump_clause_activity, decay_clause_activities};
pub use clause::db::{
    ClauseDb, add_clause, delete_clause, set_clause_tier, shorten_clause, try_delete_clause,
};
pub use clause::filter::filter_clauses;
pub use clause::gc::collect_garbage;
pub use clause::iter::{ClausesIter, clauses_iter};
pub use clause::reduce::{dedup_and_mark_by_tier, reduce_mids};
pub use glue::{compute_clause_glue, compute_clause_glue_below, compute_glue};
pub use parts::SearchState;
pub use prop::assignment::{Assignment, fast_option_eq};
pub use prop::binary::propagate_binary;
pub use prop::cause::{CauseLits, CauseLitsIter};
pub use prop::graph::{Conflict, ImplGraph, ImplNode, Reason};
pub use prop::long::propagate_long;
pub use prop::propagate;
pub use prop::trail::{Trail, backtrack, enqueue_assignment};
pub use prop::watch::{Watch, WatchList, Watchlists, enable_watchlists};
