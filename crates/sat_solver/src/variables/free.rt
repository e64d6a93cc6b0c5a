//! Sets of free indices.
ghost use Rattle.std.specs.Prelude.{ℕ, ◌≡◌, ◌==◌, ◌||◌, ◌+◌, ◌*◌, ◌<◌, ◌≤◌, true, false, MatchOption, OnOk, length};
ghost use Rattle.std.specs.Prelude.{if◌then◌else◌, slice_index_or};
ghost use Rattle.sat_base.specs.values.Literals.{var_limit};
ghost use Rattle.sat_solver.specs.variables.Free.{is_free, IsTree, HasPowerOfTwoLeaves, Refreshes, IsChild, IsLowest};
ghost use Rattle.sat_solver.specs.variables.Free.{CopiesLeaves};
ghost use Rattle.sat_solver.specs.variables.Free.{IsCounted};

use sat_base::Var;
use std::alloc::{AllocError, Global};

/// A set of indices below a bound, as a binary tree of flags in one list.
///
/// Node 1 is the root, and the children of node k are nodes 2 k and 2 k + 1. The leaves, one for every index, are the
/// second half of the list. The flag of a leaf says whether its index is in the set. The flag of any other node says
/// whether the flag of at least one of its children is set.
#[derive(Drop)]
pub struct FreeIndices {
    nodes: Vec<bool>,

    /// The number of leaves: 0 or a power of two.
    room: usize,

    /// The number of levels above the leaves.
    height: usize,

    /// The number of indices in the set.
    count: usize,
}

/// Returns the number of indices in the set after the flag of one index has changed from `before` to `after`. `count`
/// is the number of indices before the change.
fn recount_free(count: usize, before: bool, after: bool) -> usize
    requires some { before ≡ true → 0 < count }
    requires small { count ≤ var_limit }
    ensures { result + (if before then 1 else 0) ≡ count + (if after then 1 else 0) }
{
    if before == after {
        return count;
    }
    if after { count + 1 } else { count - 1 }
}

/// Returns `true` if a node agrees with its children.
fn is_fresh(nodes: &Vec<bool>, at: usize) -> bool
    requires within { 2 * at + 1 < length nodes.now.items }
    ensures { result ≡ true → slice_index_or nodes.now.items at false
        ≡ (slice_index_or nodes.now.items (2 * at) false || slice_index_or nodes.now.items (2 * at + 1) false) }
{
    let any = nodes[2 * at] || nodes[2 * at + 1];
    nodes[at] == any
}

/// Updates a node from its children.
fn refresh(nodes: &mut Vec<bool>, at: usize)
    requires within { 2 * at + 1 < length nodes.old.items }
    ensures { Refreshes nodes.old.items nodes.new.items at }
{
    let any = nodes[2 * at] || nodes[2 * at + 1];
    nodes[at] = any;
}

/// Returns the first child of node `at` whose flag is set. At least one child must have its flag set.
fn child(nodes: &Vec<bool>, at: usize) -> usize
    requires within { 2 * at + 1 < length nodes.now.items }
    requires some { (slice_index_or nodes.now.items (2 * at) false || slice_index_or nodes.now.items (2 * at + 1) false)
        ≡ true }
    ensures { IsChild nodes.now.items at result }
{
    if nodes[2 * at] {
        return 2 * at;
    }
    2 * at + 1
}

/// Extends the list to `count` nodes. The flags of the new nodes are not set.
pub(crate) fn widen(nodes: &mut Vec<bool>, count: usize) -> Result<(), AllocError>
    requires more { length nodes.old.items ≤ count }
    ensures size { OnOk result (length nodes.new.items ≡ count) }
    ensures same { OnOk result ((q : ℕ) → slice_index_or nodes.new.items q false
        ≡ slice_index_or nodes.old.items q false) }
{
    nodes.resize(count, false)?;
    Ok(())
}

/// Copies the leaves of a tree with `room` leaves to the positions of the first `room` leaves of a tree twice
/// that size.
fn copy_leaves(nodes: &mut Vec<bool>, room: usize)
    requires size { length nodes.old.items ≡ 4 * room }
    ensures { CopiesLeaves nodes.old.items nodes.new.items room }
{
    nodes.as_mut_slice().copy_within(room..2 * room, 2 * room);
}

impl FreeIndices {
    /// Creates an empty set. Never allocates.
    pub fn new(alloc: Global) -> FreeIndices
        ensures tree { IsTree result }
        ensures none { (i : ℕ) → is_free result i ≡ false }
    {
        FreeIndices {
            nodes: Vec::new(alloc),
            room: 0,
            height: 0,
            count: 0,
        }
    }

    /// Returns the number of indices in the set.
    pub fn count(&self) -> usize
        ensures { result ≡ self.now.count }
    {
        self.count
    }

    /// Returns the lowest index in the set, or `None`.
    pub fn lowest(&self) -> Option<Var>
        requires { IsTree self.now }
        ensures { MatchOption result ((i : ℕ) → is_free self.now i ≡ false) (IsLowest self.now) }
    {
        if self.room == 0 || !self.nodes[1] {
            return None;
        }
        let mut at = 1;
        for _level in 0..self.height {
            at = child(&self.nodes, at);
        }
        Some(Var::from_index(at - self.room))
    }

    /// Adds `index` to the set if `free` is true, and removes it otherwise. If the set does not change, reads only the
    /// leaf of the index.
    fn set(&mut self, index: usize, free: bool)
        requires tree { IsTree self.old }
        requires within { index < self.old.room }
        ensures tree { IsTree self.new }
        ensures set { (i : ℕ) → is_free self.new i ≡ (if i == index then free else is_free self.old i) }
        ensures room { self.new.room ≡ self.old.room }
    {
        if self.nodes[self.room + index] == free {
            return;
        }
        self.change(index, free);
    }

    /// Adds `index` to the set if `free` is true, and removes it otherwise. Updates the nodes above the leaf of the
    /// index, up to the first node that does not change.
    fn change(&mut self, index: usize, free: bool)
        requires tree { IsTree self.old }
        requires within { index < self.old.room }
        ensures tree { IsTree self.new }
        ensures set { (i : ℕ) → is_free self.new i ≡ (if i == index then free else is_free self.old i) }
        ensures room { self.new.room ≡ self.old.room }
    {
        let mut at = self.room + index;
        let before = self.nodes[at];
        self.count = recount_free(self.count, before, free);
        self.nodes[at] = free;
        while at > 1 {
            at /= 2;
            if is_fresh(&self.nodes, at) {
                return;
            }
            refresh(&mut self.nodes, at);
        }
    }

    /// Adds an index to the set. There must be room for the index. Never allocates.
    pub fn put(&mut self, index: Var)
        requires tree { IsTree self.old }
        requires within { index < self.old.room }
        ensures tree { IsTree self.new }
        ensures set { (i : ℕ) → is_free self.new i ≡ (if i == index then true else is_free self.old i) }
        ensures room { self.new.room ≡ self.old.room }
    {
        self.set(index.index(), true);
    }

    /// Removes an index from the set, if the set contains it. There must be room for the index. Never allocates.
    pub fn remove(&mut self, index: Var)
        requires tree { IsTree self.old }
        requires within { index < self.old.room }
        ensures tree { IsTree self.new }
        ensures set { (i : ℕ) → is_free self.new i ≡ (if i == index then false else is_free self.old i) }
        ensures room { self.new.room ≡ self.old.room }
    {
        self.set(index.index(), false);
    }

    /// Updates every inner node from its children.
    fn refresh_all(&mut self)
        requires size { length self.old.nodes.items ≡ 2 * self.old.room }
        requires power { HasPowerOfTwoLeaves self.old }
        requires counted { IsCounted self.old }
        ensures tree { IsTree self.new }
        ensures leaves { (i : ℕ) → is_free self.new i ≡ is_free self.old i }
        ensures room { self.new.room ≡ self.old.room }
    {
        for at in (1..self.room).rev() {
            refresh(&mut self.nodes, at);
        }
    }

    /// Makes room for at least one more index, which is not in the set.
    fn grow(&mut self) -> Result<(), AllocError>
        requires tree { IsTree self.old }
        requires small { self.old.room < var_limit }
        ensures tree { OnOk result (IsTree self.new) }
        ensures same { OnOk result ((i : ℕ) → is_free self.new i ≡ is_free self.old i) }
        ensures room { OnOk result (self.old.room < self.new.room) }
    {
        if self.room == 0 {
            widen(&mut self.nodes, 2)?;
            self.room = 1;
            self.height = 0;
            return Ok(());
        }
        widen(&mut self.nodes, 4 * self.room)?;
        if self.count == 0 {
            self.room *= 2;
            self.height += 1;
            return Ok(());
        }
        copy_leaves(&mut self.nodes, self.room);
        self.room *= 2;
        self.height += 1;
        self.refresh_all();
        Ok(())
    }

    /// Makes room for `index`, which must be at most the lowest index for which there is no room.
    pub fn reserve(&mut self, index: Var) -> Result<(), AllocError>
        requires tree { IsTree self.old }
        requires next { index ≤ self.old.room }
        ensures tree { OnOk result (IsTree self.new) }
        ensures same { OnOk result ((i : ℕ) → is_free self.new i ≡ is_free self.old i) }
        ensures room { OnOk result (index < self.new.room) }
        ensures more { OnOk result (self.old.room ≤ self.new.room) }
    {
        if index.index() < self.room {
            return Ok(());
        }
        self.grow()
    }
}
