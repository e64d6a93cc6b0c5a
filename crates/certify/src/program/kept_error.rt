//! Keeps the system's error of a failed call to a device, until the fault is reported.

use std::io;

/// Stores the error in `kept` if a call returned one.
pub(crate) fn keep_error<T>(kept: &mut Option<io::Error>, call: &io::Result<T>) {
    if let Err(error) = call {
        *kept = Some(*error);
    }
}
