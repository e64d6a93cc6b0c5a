//! A ghost of an error that is stored elsewhere. It has size zero, and creating it does nothing at run time.
ghost use Rattle.std.specs.Prelude.{◌≡◌};
ghost use Rattle.std.specs.Borrow.{ftrue};

use std::fmt;
use std::marker::{Model, PhantomData};

/// An error as a ghost. The error itself is stored elsewhere.
#[derive(Drop)]
pub struct Kept<T> {
    of: PhantomData<T>,
    pub ghost cause: { T },
}

impl<T> Model for Kept<T> {
    ghost Value = { T };

    ghost view = { λ k. k.cause };

    ghost also_owns = { λ _. ftrue };
}

impl<T> fmt::Debug for Kept<T> {
    /// Writes the name of the type. The error itself is stored elsewhere.
    fn fmt<W: fmt::Write>(&self, f: &mut fmt::Formatter<W>) -> fmt::Result {
        write!(f, "Kept")
    }
}

impl<T> Kept<T> {
    /// Creates the ghost of an error.
    pub fn of(_cause: &T) -> Kept<T>
        ensures { result ≡ _cause.now }
    {
        Kept { of: PhantomData }
    }
}
