//! Tables of values, indexed by numbers that are called *places*.
ghost use Rattle.std.specs.Prelude.{ℕ, ◌≡◌, ◌≤◌, ◌<◌, ◌+◌, length, slice_index_or, OnOk, OnErr};
ghost use Rattle.std.specs.BTreeMap.{btree_map_len};
ghost use Rattle.sat_base.specs.values.Tables.{near_count, value_at, HasPlaceFor, KeepsRoom, KeepsValues, SetsValue};

use std::alloc::{AllocError, Global};
use std::collections::BTreeMap;

/// Every table can have at least this many near places.
const FEW: usize = 1 << 18;

/// Every place for which room is made allows this many more near places.
const MORE: usize = 8;

/// A table that maps places, which are numbers, to values. Most of the values may be missing.
///
/// The values of the *near* places, those below some number, are in a list; other values are in a tree. The length of
/// the list is limited by the number of places for which room was made, or by the owner. So the memory of a table
/// depends on how many places are used, not on how large they are. Accessing a near place costs as much as in a `Vec`.
#[derive(Drop)]
pub struct Table<T> {
    near: Vec<T>,
    far: BTreeMap<usize, T>,
    /// Only places below this number may become near.
    limit: usize,
}

impl<T: Copy> Table<T> {
    /// Returns a table without values. Never allocates.
    pub fn new(alloc: Global) -> Table<T>
        ensures { (missing : T) (v : ℕ) → value_at missing result v ≡ missing }
    {
        Table {
            near: Vec::new(alloc),
            far: BTreeMap::new(alloc),
            limit: FEW,
        }
    }

    /// Allows all places below `limit` to become near. Never allocates, and changes no value.
    #[inline(always)]
    pub fn allow(&mut self, limit: usize)
        ensures same { (missing : T) → KeepsValues missing self.old self.new }
        ensures room { KeepsRoom self.old self.new }
    {
        self.limit = self.limit.max(limit);
    }

    /// Allows `more` more places to become near. Never allocates, and changes no value.
    #[inline(always)]
    pub fn grant(&mut self, more: usize)
        ensures same { (missing : T) → KeepsValues missing self.old self.new }
        ensures room { KeepsRoom self.old self.new }
    {
        self.limit = self.limit.saturating_add(more);
    }

    /// Returns the number of near places.
    pub fn near_count(&self) -> usize
        ensures { result ≡ near_count self.now }
    {
        self.near.len()
    }

    /// Returns the values of the near places, as a slice.
    #[inline(always)]
    pub fn near(&self) -> &[T]
        ensures count { length result.now ≡ near_count self.now }
        ensures values { (missing : T) (place : ℕ) → place < length result.now
            → slice_index_or result.now place missing ≡ value_at missing self.now place }
    {
        self.near.as_slice()
    }

    /// Returns the value at `place`, or `missing` if there is none.
    #[inline(always)]
    pub fn get(&self, place: usize, missing: T) -> T
        ensures { result ≡ value_at missing self.now place }
    {
        if place < self.near.len() {
            return self.near[place];
        }
        self.get_past_near(place, missing)
    }

    /// Returns the value at `place`, which must not be near, or `missing` if there is none.
    #[inline(always)]
    fn get_past_near(&self, place: usize, missing: T) -> T
        requires { length self.now.near.items ≤ place }
        ensures { result ≡ value_at missing self.now place }
    {
        if self.far.is_empty() {
            return missing;
        }
        self.get_far(place, missing)
    }

    /// Returns the value at `place` from the tree, or `missing` if there is none.
    #[inline(never)]
    fn get_far(&self, place: usize, missing: T) -> T
        requires { length self.now.near.items ≤ place }
        ensures { result ≡ value_at missing self.now place }
    {
        match self.far.get(&place) {
            Some(value) => *value,
            None => missing,
        }
    }

    /// Makes room for a value at `place`. A place without a value gets the value `missing`. Other values don't change,
    /// even if memory runs out.
    #[inline(always)]
    pub fn make_room(&mut self, place: usize, missing: T) -> Result<(), AllocError>
        ensures room { OnOk result (HasPlaceFor self.new place) }
        ensures same { KeepsValues missing self.old self.new }
        ensures others { KeepsRoom self.old self.new }
    {
        if place < self.near.len() {
            return Ok(());
        }
        self.make_room_far(place, missing)
    }

    /// Makes room for a value at `place`, which is not near, either in the list or in the tree.
    #[inline(never)]
    fn make_room_far(&mut self, place: usize, missing: T) -> Result<(), AllocError>
        requires { length self.old.near.items ≤ place }
        ensures room { OnOk result (HasPlaceFor self.new place) }
        ensures same { KeepsValues missing self.old self.new }
        ensures others { KeepsRoom self.old self.new }
    {
        if place < self.limit {
            return self.draw_near(place, missing);
        }
        self.make_far(place, missing)
    }

    /// Makes `place` and all places before it near, and up to `MORE - 1` places after it, if they may become near.
    fn draw_near(&mut self, place: usize, missing: T) -> Result<(), AllocError>
        requires far { length self.old.near.items ≤ place }
        requires within { place < self.old.limit }
        ensures room { OnOk result (HasPlaceFor self.new place) }
        ensures same { KeepsValues missing self.old self.new }
        ensures others { KeepsRoom self.old self.new }
    {
        let end = place.saturating_add(MORE).min(self.limit);
        self.draw_up_to(end, missing)?;
        self.limit = self.limit.saturating_add(MORE);
        Ok(())
    }

    /// Makes all places before `end` near.
    fn draw_up_to(&mut self, end: usize, missing: T) -> Result<(), AllocError>
        requires { length self.old.near.items ≤ end }
        ensures longer { OnOk result (length self.new.near.items ≡ end) }
        ensures same { KeepsValues missing self.old self.new }
        ensures others { KeepsRoom self.old self.new }
    {
        if self.far.is_empty() {
            return self.fill_up_to(end, missing);
        }
        for next in self.near.len()..end {
            self.draw_next(next, missing)?;
        }
        Ok(())
    }

    /// Makes all places before `end` near. New ones get the value `missing`. The tree must be empty.
    #[inline(always)]
    fn fill_up_to(&mut self, end: usize, missing: T) -> Result<(), AllocError>
        requires longer { length self.old.near.items ≤ end }
        requires alone { btree_map_len self.old.far ≡ 0 }
        ensures longer { OnOk result (length self.new.near.items ≡ end) }
        ensures same { KeepsValues missing self.old self.new }
        ensures others { KeepsRoom self.old self.new }
    {
        self.near.resize(end, missing)
    }

    /// Makes `next`, the first place that is not near, near.
    fn draw_next(&mut self, next: usize, missing: T) -> Result<(), AllocError>
        requires { length self.old.near.items ≡ next }
        ensures longer { OnOk result (length self.new.near.items ≡ next + 1) }
        ensures same { KeepsValues missing self.old self.new }
        ensures others { KeepsRoom self.old self.new }
    {
        let value = self.get(next, missing);
        self.near.push(value)?;
        Ok(())
    }

    /// Makes room for a value at `place` in the tree.
    fn make_far(&mut self, place: usize, missing: T) -> Result<(), AllocError>
        requires { length self.old.near.items ≤ place }
        ensures room { OnOk result (HasPlaceFor self.new place) }
        ensures same { KeepsValues missing self.old self.new }
        ensures others { KeepsRoom self.old self.new }
    {
        if self.far.contains_key(&place) {
            return Ok(());
        }
        self.far.insert(place, missing)?;
        self.limit = self.limit.saturating_add(MORE);
        Ok(())
    }

    /// Sets the value at `place`, for which room must have been made. Never allocates.
    #[inline(always)]
    pub fn put(&mut self, place: usize, value: T)
        requires { HasPlaceFor self.old place }
        ensures set { (missing : T) → SetsValue missing self.old self.new place value }
        ensures room { KeepsRoom self.old self.new }
    {
        if place < self.near.len() {
            self.near[place] = value;
            return;
        }
        self.put_far(place, value);
    }

    /// Sets the value at `place` in the tree.
    #[inline(never)]
    fn put_far(&mut self, place: usize, value: T)
        requires room { HasPlaceFor self.old place }
        requires far { length self.old.near.items ≤ place }
        ensures set { (missing : T) → SetsValue missing self.old self.new place value }
        ensures room { KeepsRoom self.old self.new }
    {
        if let Some(kept) = self.far.get_mut(&place) {
            *kept = value;
        }
    }

    /// Sets the value at `place`. If memory runs out, no value changes.
    pub fn set(&mut self, place: usize, value: T, missing: T) -> Result<(), AllocError>
        ensures ok { OnOk result (SetsValue missing self.old self.new place value) }
        ensures err { OnErr result (KeepsValues missing self.old self.new) }
    {
        self.make_room(place, missing)?;
        self.put(place, value);
        Ok(())
    }

    /// Resets the value at `place` to `missing`. Never allocates, and needs no room.
    #[inline(always)]
    pub fn reset(&mut self, place: usize, missing: T)
        ensures set { SetsValue missing self.old self.new place missing }
        ensures room { KeepsRoom self.old self.new }
    {
        if place < self.near.len() {
            self.near[place] = missing;
            return;
        }
        self.reset_far(place, missing);
    }

    /// Resets the value at `place` in the tree to `missing`.
    #[inline(never)]
    fn reset_far(&mut self, place: usize, missing: T)
        requires { length self.old.near.items ≤ place }
        ensures set { SetsValue missing self.old self.new place missing }
        ensures room { KeepsRoom self.old self.new }
    {
        if let Some(kept) = self.far.get_mut(&place) {
            *kept = missing;
        }
    }
}
