//! Likely places of clauses, indexed by id, so that most clauses are found without a search.
ghost use Rattle.std.specs.Prelude.{length};
ghost use Rattle.std.specs.List.Sorted.{IsSearchInRange};
ghost use Rattle.std.specs.List.Sorted.{IsBinarySearchResult};
ghost use Rattle.std.specs.Ordering.{nat_cmp};

use std::alloc::{AllocError, Global};

/// How many ids are added to the table's limit for each clause that is noted.
const SPREAD: u64 = 4;

/// The table's limit before any clause has been noted.
const FIRST: u64 = 4096;

/// Likely places of clauses, indexed by id. A likely place may be incorrect, and is tested before it is used. Ids that
/// are far above the number of clauses have no likely place, so that the table has only a few entries per clause.
#[derive(Drop)]
pub(crate) struct Guesses {
    places: Vec<u32>,
    noted: u64,
}

impl Guesses {
    /// Returns a table without places. Never allocates.
    pub(crate) fn new(alloc: Global) -> Guesses {
        Guesses {
            places: Vec::new(alloc),
            noted: 0,
        }
    }

    /// Notes the place of the clause under `id`, unless `id` or the place is too large for the table.
    pub(crate) fn note(&mut self, id: u64, place: usize) -> Result<(), AllocError> {
        self.noted = self.noted.saturating_add(1);
        if id > self.noted.saturating_mul(SPREAD).saturating_add(FIRST) {
            return Ok(());
        }
        if id >= u32::MAX as u64 || place > u32::MAX as usize {
            return Ok(());
        }
        let at = id as usize;
        if self.places.len() <= at {
            self.places.resize(at + 1, 0)?;
        }
        if at < self.places.len() {
            self.places[at] = place as u32;
        }
        Ok(())
    }

    /// Returns the place of `id` in `ids`, or where it could be inserted, as `binary_search` does, but tries the likely
    /// place first.
    #[inline(always)]
    pub(crate) fn search(&self, ids: &[u64], id: u64) -> Result<usize, usize>
        ensures bound { IsSearchInRange result (length ids.now) }
        ensures position { IsBinarySearchResult (λ y. nat_cmp y id) ids.now result }
    {
        if id < self.places.len() as u64 {
            let place = self.places[id as usize] as usize;
            if place < ids.len() && ids[place] == id {
                return Ok(place);
            }
        }
        ids.binary_search(&id)
    }
}
