//! An iterator over lists that are stored in a common buffer.
#![tactic(auto, using(crate::proofs::lemmas::values::FlatLemmas::flat))]

ghost use Rattle.std.specs.Prelude.{◌≡◌, length};
ghost use Rattle.std.specs.Iterator.{at_most};
ghost use Rattle.std.specs.Map.Iter.{TakesFirst, deref};
ghost use Rattle.sat_base.specs.values.Flat.{pieces, AreEndsOfPieces};

use std::iter::FusedIterator;
use std::marker::Model;

/// An iterator over references to the lists, in order. Contracts see the lists that are still to come.
#[derive(Debug, Drop)]
pub struct FlatListsIter<'a, T> {
    start: usize,
    items: &'a [T],
    ends: &'a [usize],
}

impl<'a, T> Model for FlatListsIter<'a, T> {
    ghost use Rattle.std.specs.Prelude.{List};
    ghost use Rattle.sat_base.specs.values.Flat.{pieces, AreEndsOfPieces};

    ghost Value = { List (List T) };

    ghost view = { λ a. pieces a.start a.ends.now a.items.now };

    ghost invariant = { λ a. AreEndsOfPieces a.start a.ends.now a.items.now };
}

impl<'a, T> FlatListsIter<'a, T> {
    /// Returns an iterator over the lists that `items` and `ends` describe.
    pub(crate) fn new(items: &'a [T], ends: &'a [usize]) -> FlatListsIter<'a, T>
        requires { AreEndsOfPieces 0 ends.now items.now }
        ensures { result ≡ pieces 0 ends.now items.now }
    {
        FlatListsIter {
            start: 0,
            items,
            ends,
        }
    }
}

impl<'a, T> Iterator for FlatListsIter<'a, T> {
    type Item = &'a [T];

    ghost next_gives = { TakesFirst deref };

    ghost remaining = { λ s. at_most (length s) };

    fn next(&mut self) -> Option<&'a [T]> {
        let (end, ends) = self.ends.split_first()?;
        let list = &self.items[self.start..*end];
        self.start = *end;
        self.ends = ends;
        Some(list)
    }

    fn size_hint(&self) -> (usize, Option<usize>) {
        let len = self.len();
        (len, Some(len))
    }
}

impl<'a, T> ExactSizeIterator for FlatListsIter<'a, T> {
    fn len(&self) -> usize {
        self.ends.len()
    }
}

impl<'a, T> FusedIterator for FlatListsIter<'a, T> {}
