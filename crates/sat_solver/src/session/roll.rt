//! A ghost of the listeners that were added to a checker. It has size zero, and its functions do nothing at run time.
ghost use Rattle.std.specs.Prelude.{◌≡◌, ◌++◌, ◌∷◌, [], List};
ghost use Rattle.std.specs.Borrow.{ftrue};

use std::marker::{Model, PhantomData};

/// The listeners in the order in which they were added, each as it was when it was added.
#[derive(Drop)]
pub struct Roll<P> {
    of: PhantomData<P>,
    pub ghost items: { List P },
}

impl<P> Model for Roll<P> {
    ghost also_owns = { λ _. ftrue };
}

impl<P> Roll<P> {
    /// Creates an empty roll.
    pub fn new() -> Roll<P>
        ensures { result.items ≡ [] }
    {
        Roll { of: PhantomData }
    }

    /// Returns the roll with the listener `_one` appended.
    pub fn and(&self, _one: &P) -> Roll<P>
        ensures { result.items ≡ self.now.items ++ _one.now ∷ [] }
    {
        Roll { of: PhantomData }
    }

    /// Returns the roll of the listeners `all`.
    pub fn of(all: &[P]) -> Roll<P>
        ensures { result.items ≡ all.now }
    {
        let mut roll = Roll::new();
        for one in all.iter() {
            roll = roll.and(one);
        }
        roll
    }
}
