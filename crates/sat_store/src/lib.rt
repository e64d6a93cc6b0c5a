//! The data structures of a solver: clause buffer, variable queue, restart sequence, level filter, and variable maps.
#![tactic(auto)]

pub mod clause;
pub mod data;
pub mod law_vsids;
pub mod level_abstraction;
pub mod luby;
pub mod tmp;
pub mod var_map;
pub mod vsids;

pub use clause::alloc::{ClauseAlloc, ClauseRef, StoreError};
pub use clause::edit::ClauseMut;
pub use clause::header::ClauseHeader;
pub use clause::tier::Tier;
pub use clause::view::{Clause, Lits, LitsIter};
pub use data::{SamplingMode, VarData};
pub use level_abstraction::LevelAbstraction;
pub use luby::LubySequence;
pub use tmp::{TmpData, TmpFlags};
pub use var_map::{VarBiMap, VarBiMapMut, VarMap};
pub use vsids::Vsids;
