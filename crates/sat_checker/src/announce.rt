//! The announcements of accepted steps, which are noted while each step is being checked, and their transcripts, which
//! use the user's variable names.

pub mod announcement;
pub(crate) mod notes;
pub(crate) mod pending;
pub(crate) mod step_announcements;
pub mod transcript;
