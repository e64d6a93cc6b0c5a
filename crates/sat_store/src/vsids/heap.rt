//! A heap with four children per node, at the start of a list of all variables with their activities.
ghost use Rattle.std.specs.Prelude.{◌≡◌, ◌+◌, ◌*◌, ◌<◌, ◌≤◌, ◌↔◌, IsTrue, length, MatchOption, slice_set, ◌-◌, true};
ghost use Rattle.std.specs.Prelude.{false, vec_capacity};
ghost use Rattle.sat_base.specs.values.Literals.{var_limit};
ghost use Rattle.sat_store.specs.heap.Heap.{var_at, VariablesAreWithinLimit, PositionsMatch, IsHeap, KeepsHeap, rank};
ghost use Rattle.sat_store.specs.heap.Heap.{rank_at, parent};
ghost use Rattle.sat_store.specs.heap.Heap.{IsHeapOrdered, OrderedExceptAt, IsChildAt, IsFirstOf, FirstChildOf};
ghost use Rattle.sat_store.specs.heap.Heap.{ChildrenRankAtMost, FirstChildRanksAbove};
ghost use Rattle.sat_store.specs.heap.Heap.{NoChildRanksAbove, SiftsDown};
ghost use Rattle.sat_store.specs.heap.Heap.{SwapsEntries, PermutesEntries, SetsAvailable, AddsHeapVars};
ghost use Rattle.sat_store.specs.heap.Heap.{activities_by_var};

/// A variable and its activity.
#[derive(Clone, Copy)]
pub(super) struct Entry {
    pub(super) key: u64,
    pub(super) var: u32,
}

/// Writes an entry at a position, and records that position for the entry's variable.
#[inline(always)] // called for each step through the heap
fn put(heap: &mut Vec<Entry>, positions: &mut Vec<u32>, at: usize, entry: Entry)
    requires few { length heap.old.items ≤ var_limit }
    requires at { at < length heap.old.items }
    requires var { entry.var < length positions.old.items }
    ensures heap { heap.new.items ≡ slice_set heap.old.items at entry }
    ensures positions { positions.new.items ≡ slice_set positions.old.items entry.var at }
{
    heap[at] = entry;
    positions[entry.var as usize] = at as u32;
}

/// Swaps the entries at two positions.
pub(super) fn exchange(heap: &mut Vec<Entry>, positions: &mut Vec<u32>, i: usize, j: usize)
    requires placed { PositionsMatch heap.old.items positions.old.items }
    requires few { length heap.old.items ≤ var_limit }
    requires first { i < length heap.old.items }
    requires second { j < length heap.old.items }
    ensures { SwapsEntries heap.old.items positions.old.items heap.new.items positions.new.items i j }
{
    let first = heap[i];
    let second = heap[j];
    put(heap, positions, i, second);
    put(heap, positions, j, first);
}

/// Returns `true` if `a` comes before `b`: the activity of `a` is higher, or the activities are equal and the index of
/// `a` is lower.
#[inline(always)] // called at least once for each step through the heap
fn is_above(a: Entry, b: Entry) -> bool
    requires first { a.var < var_limit }
    requires second { b.var < var_limit }
    ensures { IsTrue result ↔ (rank b < rank a) }
{
    u128::from(a.key) * 18446744073709551616 + u128::from(b.var)
        > u128::from(b.key) * 18446744073709551616 + u128::from(a.var)
}

/// Returns `true` if an entry comes before the parent of a position.
#[inline(always)] // called at each step up
fn ranks_above_parent(heap: &[Entry], entry: Entry, at: usize) -> bool
    requires listed { VariablesAreWithinLimit heap.now }
    requires var { entry.var < var_limit }
    requires at { at < length heap.now }
    ensures { IsTrue result ↔ ((0 < at) × (rank_at heap.now (parent at) < rank entry)) }
{
    at > 0 && is_above(entry, heap[(at - 1) / 4])
}

/// Moves the entry at a position up until the heap is ordered.
pub(super) fn sift_up(heap: &mut Vec<Entry>, positions: &mut Vec<u32>, available: usize, at: usize)
    requires placed { PositionsMatch heap.old.items positions.old.items }
    requires few { length heap.old.items ≤ var_limit }
    requires within { available ≤ length heap.old.items }
    requires at { at < available }
    requires up { OrderedExceptAt (rank_at heap.old.items) available at }
    ensures same { PermutesEntries available heap.old.items positions.old.items heap.new.items positions.new.items }
    ensures ordered { IsHeapOrdered (rank_at heap.new.items) available 0 }
{
    let entry = heap[at];
    let mut hole = at;
    while ranks_above_parent(heap, entry, hole) {
        let above = (hole - 1) / 4;
        let other = heap[above];
        put(heap, positions, hole, other);
        hole = above;
    }
    put(heap, positions, hole, entry);
}

/// An entry with its position.
#[derive(Clone, Copy)]
struct Child {
    entry: Entry,
    at: usize,
}

/// Returns the entry at a position.
#[inline(always)] // called at each step down
fn child_at(heap: &[Entry], at: usize) -> Child
    requires { at < length heap.now }
    ensures { IsChildAt heap.now at result }
{
    Child {
        entry: heap[at],
        at,
    }
}

/// Returns that one of two entries that comes before the other.
#[inline(always)] // called at each step down
fn first_of(a: Child, b: Child) -> Child
    requires first { a.entry.var < var_limit }
    requires second { b.entry.var < var_limit }
    ensures first { IsFirstOf a b result }
    ensures var { result.entry.var < var_limit }
{
    if is_above(b.entry, a.entry) { b } else { a }
}

/// Returns that child of `at` that comes before the others in the heap's order. There must be a child.
#[inline(always)] // called at each step down
fn first_child(heap: &[Entry], available: usize, at: usize) -> Child
    requires listed { VariablesAreWithinLimit heap.now }
    requires few { length heap.now ≤ var_limit }
    requires within { available ≤ length heap.now }
    requires some { 4 * at + 1 < available }
    ensures { FirstChildOf heap.now available at result }
{
    if 4 * at + 4 < available {
        let low = first_of(child_at(heap, 4 * at + 1), child_at(heap, 4 * at + 2));
        let high = first_of(child_at(heap, 4 * at + 3), child_at(heap, 4 * at + 4));
        return first_of(low, high);
    }
    child_at(heap, last_first_child(heap, available, at))
}

/// Returns the position of the child that `first_child` returns, for any number of children.
#[inline(never)] // at most one position has one, two or three children
fn last_first_child(heap: &[Entry], available: usize, at: usize) -> usize
    requires listed { VariablesAreWithinLimit heap.now }
    requires few { length heap.now ≤ var_limit }
    requires within { available ≤ length heap.now }
    requires some { 4 * at + 1 < available }
    ensures child { parent result ≡ at }
    ensures positive { 0 < result }
    ensures within { result < available }
    ensures first { ChildrenRankAtMost (rank_at heap.now) available at result }
{
    let mut child = 4 * at + 1;
    let mut best = heap[child];
    let end = available.min(4 * at + 5);
    for next in 4 * at + 2..end {
        let other = heap[next];
        if !is_above(other, best) {
            continue;
        }
        child = next;
        best = other;
    }
    child
}

/// Returns the child that `first_child` returns, if its entry comes before `entry`; otherwise, or if `at` has no
/// child, returns `None`.
#[inline(always)] // called at each step down
fn child_above(heap: &[Entry], available: usize, entry: Entry, at: usize) -> Option<Child>
    requires listed { VariablesAreWithinLimit heap.now }
    requires few { length heap.now ≤ var_limit }
    requires within { available ≤ length heap.now }
    requires var { entry.var < var_limit }
    requires at { at < available }
    ensures { MatchOption result (NoChildRanksAbove heap.now available entry at)
        (λ child. FirstChildRanksAbove heap.now available entry at child.at × IsChildAt heap.now child.at child) }
{
    if 4 * at + 1 >= available {
        return None;
    }
    let child = first_child(heap, available, at);
    if !is_above(child.entry, entry) {
        return None;
    }
    Some(child)
}

/// Moves the entry at a position down until the heap is ordered.
pub(super) fn sift_down(
    heap: &mut Vec<Entry>,
    positions: &mut Vec<u32>,
    available: usize,
    at: usize,
)
    requires placed { PositionsMatch heap.old.items positions.old.items }
    requires few { length heap.old.items ≤ var_limit }
    requires within { available ≤ length heap.old.items }
    requires at { at < available }
    ensures same { PermutesEntries available heap.old.items positions.old.items heap.new.items positions.new.items }
    ensures ordered { SiftsDown (rank_at heap.old.items) (rank_at heap.new.items) available at }
{
    let entry = heap[at];
    let mut hole = at;
    while let Some(child) = child_above(heap, available, entry, hole) {
        put(heap, positions, hole, child.entry);
        hole = child.at;
    }
    put(heap, positions, hole, entry);
}

/// Turns the first `available` entries into a heap, from the bottom up.
pub(super) fn heapify(heap: &mut Vec<Entry>, positions: &mut Vec<u32>, available: usize)
    requires placed { PositionsMatch heap.old.items positions.old.items }
    requires few { length heap.old.items ≤ var_limit }
    requires within { available ≤ length heap.old.items }
    ensures same { PermutesEntries available heap.old.items positions.old.items heap.new.items positions.new.items }
    ensures ordered { IsHeapOrdered (rank_at heap.new.items) available 0 }
{
    let mut low = (available + 2) / 4;
    while low > 0 {
        low -= 1;
        sift_down(heap, positions, available, low);
    }
}

/// Removes the variable at a position from the heap, so that there is one fewer available variable.
pub(super) fn take_out(heap: &mut Vec<Entry>, positions: &mut Vec<u32>, available: usize, at: usize)
    requires heap { IsHeap heap.old.items positions.old.items available }
    requires at { at < available }
    ensures heap { IsHeap heap.new.items positions.new.items (available - 1) }
    ensures flags { SetsAvailable available (available - 1) positions.old.items positions.new.items
        (var_at heap.old.items at) false }
    ensures keys { activities_by_var heap.new.items positions.new.items ≡ activities_by_var heap.old.items positions.old.items }
{
    let last = available - 1;
    exchange(heap, positions, at, last);
    if at == last {
        return;
    }
    if ranks_above_parent(heap, heap[at], at) {
        sift_up(heap, positions, last, at);
        return;
    }
    sift_down(heap, positions, last, at);
}

/// Inserts the variable at position `at` into the heap, so that there is one more available variable. The position must
/// be after the heap.
#[inline(never)] // most variables that are undone are available
pub(super) fn put_in(heap: &mut Vec<Entry>, positions: &mut Vec<u32>, available: usize, at: usize)
    requires heap { IsHeap heap.old.items positions.old.items available }
    requires following { available ≤ at }
    requires at { at < length heap.old.items }
    ensures heap { IsHeap heap.new.items positions.new.items (available + 1) }
    ensures flags { SetsAvailable available (available + 1) positions.old.items positions.new.items
        (var_at heap.old.items at) true }
    ensures keys { activities_by_var heap.new.items positions.new.items ≡ activities_by_var heap.old.items positions.old.items }
{
    exchange(heap, positions, at, available);
    sift_up(heap, positions, available + 1, available);
}

/// Appends new variables with activity 0 until there are `count` variables. Capacity for them must have been reserved.
pub(super) fn add_variables(heap: &mut Vec<Entry>, positions: &mut Vec<u32>, count: usize)
    requires heap_room { count ≤ vec_capacity heap.old }
    requires positions_room { count ≤ vec_capacity positions.old }
    requires placed { PositionsMatch heap.old.items positions.old.items }
    requires more { length heap.old.items ≤ count }
    requires few { count ≤ var_limit }
    ensures heap { KeepsHeap heap.old.items positions.old.items heap.new.items positions.new.items }
    ensures adds { AddsHeapVars count heap.old.items positions.old.items heap.new.items positions.new.items }
{
    for index in heap.len()..count {
        heap.push_reserved(Entry {
            key: 0,
            var: index as u32,
        });
        positions.push_reserved(index as u32);
    }
}
