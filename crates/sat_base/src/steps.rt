//! Proof steps, and their encoding as bytes.

mod error;
mod fields;
mod groups;
mod kind;
mod lists;
mod numbers;
mod push;
mod read_state;
mod reader;
mod step;
mod step_lists;
mod values;
mod writer;

pub use self::error::StepError;
pub use self::numbers::push_leb128;
pub use self::reader::StepReader;
pub use self::step::{DeleteClauseProof, HashBits, ProofStep};
pub use self::writer::{StepWriter, write_step};
