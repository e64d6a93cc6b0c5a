//! Lists of lists, stored as a buffer with the items of all lists, and the position where each list ends.
#![tactic(auto, using(crate::proofs::lemmas::values::FlatLemmas::flat))]

ghost use Rattle.std.specs.Prelude.{◌≡◌, ◌≤◌, ◌<◌, ◌↔◌, ◌++◌, ◌∷◌, [], List, IsTrue, length, slice_index};
ghost use Rattle.std.specs.Prelude.{slice_index_or, OnOk, OnErr};

mod iter;

pub use self::iter::FlatListsIter;
use std::alloc::{AllocError, Global};
use std::marker::Model;

/// A list of lists, in the order in which they were added. Contracts see a list of lists.
#[derive(Debug, Drop)]
pub struct FlatLists<T> {
    items: Vec<T>,
    ends: Vec<usize>,
}

impl<T> Model for FlatLists<T> {
    ghost use Rattle.std.specs.Prelude.{List};
    ghost use Rattle.sat_base.specs.values.Flat.{pieces, AreEndsOfPieces};

    ghost Value = { List (List T) };

    ghost view = { λ f. pieces 0 f.ends.items f.items.items };

    ghost invariant = { λ f. AreEndsOfPieces 0 f.ends.items f.items.items };
}

/// Returns the position where the list with the index `place` begins.
fn start_at(ends: &[usize], place: usize) -> usize
    requires { place ≤ length ends.now }
    ensures { result ≡ slice_index (0 ∷ ends.now) place }
{
    if place == 0 { 0 } else { ends[place - 1] }
}

impl<T: Copy> FlatLists<T> {
    /// Returns an empty list of lists. Never allocates.
    pub fn new(alloc: Global) -> FlatLists<T>
        ensures { result ≡ [] }
    {
        FlatLists {
            items: Vec::new(alloc),
            ends: Vec::new(alloc),
        }
    }

    /// Returns the number of lists.
    pub fn len(&self) -> usize
        ensures { result ≡ length self.now }
    {
        self.ends.len()
    }

    /// Returns `true` if there are no lists.
    pub fn is_empty(&self) -> bool
        ensures { IsTrue result ↔ self.now ≡ [] }
    {
        self.len() == 0
    }

    /// Returns the list at index `place`, as a slice.
    pub fn get(&self, place: usize) -> &[T]
        requires { place < length self.now }
        ensures { result.now ≡ slice_index_or self.now place [] }
    {
        let start = start_at(&self.ends, place);
        &self.items[start..self.ends[place]]
    }

    /// Appends a list.
    pub fn push(&mut self, list: &[T]) -> Result<(), AllocError>
        ensures ok { OnOk result (self.new ≡ self.old ++ list.now ∷ []) }
        ensures err { OnErr result (self.new ≡ self.old) }
    {
        self.ends.reserve(1)?;
        self.items.extend_from_slice(list)?;
        self.ends.push(self.items.len())?;
        Ok(())
    }

    /// Removes all lists. Has no effect on the allocated memory.
    pub fn clear(&mut self)
        ensures { self.new ≡ [] }
    {
        self.items.clear();
        self.ends.clear();
    }

    /// Returns an iterator over the lists, in order.
    pub fn iter(&self) -> FlatListsIter<'_, T>
        ensures { result ≡ self.now }
    {
        FlatListsIter::new(self.items.as_slice(), self.ends.as_slice())
    }
}
