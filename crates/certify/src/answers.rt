//! Writes and reads the text of answers.

pub mod read;
pub(crate) mod refused;
pub mod write;
