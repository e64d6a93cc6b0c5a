//! Stores a writer's error until it is returned.
ghost use Rattle.std.specs.Prelude.{◌≡◌, is_ok};

use std::io;

/// A marker that says that a call to the writer failed, and that the error is stored. An `io::Error` takes 80 bytes,
/// which every function that returns one would have to clear.
#[derive(Clone, Copy)]
pub(crate) struct WriteFailed;

/// Stores the error from a call in `kept`, and replaces the error with `WriteFailed`.
pub(crate) fn keep_error(
    kept: &mut Option<io::Error>,
    answer: io::Result<()>,
) -> Result<(), WriteFailed>
    ensures { is_ok result ≡ is_ok answer }
{
    match answer {
        Ok(()) => Ok(()),
        Err(error) => {
            *kept = Some(error);
            Err(WriteFailed)
        }
    }
}
