//! A checker of proof steps. It accepts exactly the steps that the rules allow, and notifies listeners of what these
//! steps announce.
#![tactic(auto)]

pub mod announce;
pub mod checker;
pub mod error;
pub(crate) mod formula;
pub mod hash;
pub mod internal;
pub(crate) mod kernel;
pub mod law_announcements;
pub mod law_stored;
pub mod laws;
pub mod looks;
pub mod processing;
pub mod rup;
pub mod sorted_lits;
pub(crate) mod state;
pub mod store;
pub(crate) mod units;
pub mod unsorted_lits;
pub mod variables;

pub use announce::announcement::{
    CheckedProofStep, CheckedSamplingMode, CheckedUserVar, CheckerData, ResolutionPropagations,
};
pub use announce::transcript::{ProofTranscriptProcessor, ProofTranscriptStep, Transcript};
pub use checker::Checker;
pub use error::{CheckerDimacsError, CheckerError};
pub use hash::ClauseHasher;
pub use internal::SelfChecker;
pub use kernel::StepRefusal;
pub use looks::Looks;
pub use processing::{Nobody, Processing, ProcessingError, Processors, ProofProcessor};
pub use units::assigned::{Assigned, Look, assume_if_roomy, look_at, make_room_for};
