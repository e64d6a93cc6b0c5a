//! The watch lists: for every literal, the long clauses to visit when the literal becomes true.
ghost use Rattle.std.specs.Prelude.{ℕ, IsTrue, ◌≡◌, ◌-◌, ◌*◌, ◌<◌, ◌≤◌, ◌∷◌, ◌++◌, [], length, OnOk, OnErr, take, drop};
ghost use Rattle.std.specs.Prelude.{true, false, slice_index_or, slice_set, if◌then◌else◌, is_ok, vec_capacity};
ghost use Rattle.sat_base.specs.values.Literals.{var_limit, negated};
ghost use Rattle.sat_store.specs.clause.Buffer.{HoldsClauses};
ghost use Rattle.sat_parts.specs.clause.Db.{live_refs};
ghost use Rattle.sat_parts.specs.clause.Stored.{AreLongClauses};
ghost use Rattle.sat_parts.specs.prop.Building.{LiveClausesAreWatched};
ghost use Rattle.sat_parts.specs.prop.WatchLists.{watches_of, no_watch, watch_on, with_watch, without_last_watch};
ghost use Rattle.sat_parts.specs.prop.WatchLists.{with_clause_watches, with_lists, with_lists_up_to, HasListRoom};

use crate::clause::db::ClauseDb;
use sat_base::Lit;
use sat_store::{ClauseAlloc, ClauseRef};
use std::alloc::{AllocError, Global};
use std::marker::Model;
use std::mem;

/// A long clause to visit, and its blocking literal. If the blocking literal is true, the clause is not read.
#[derive(Clone, Copy)]
pub struct Watch {
    pub cref: ClauseRef,
    pub blocking: Lit,
}

/// The watches of one literal. Contracts see the list of the watches.
#[derive(Drop)]
pub struct WatchList {
    watches: Vec<Watch>,
}

impl Model for WatchList {
    ghost use Rattle.std.specs.Prelude.{List};
    ghost use Rattle.sat_parts.specs.declared.prop.watch.Watch.{Watch};

    ghost Value = { List Watch };

    ghost view = { λ l. l.watches.items };
}

impl WatchList {
    /// Returns an empty list. Never allocates.
    pub fn new(alloc: Global) -> WatchList
        ensures { result ≡ [] }
    {
        WatchList {
            watches: Vec::new(alloc),
        }
    }

    /// Returns the number of watches.
    pub fn len(&self) -> usize
        ensures { result ≡ length self.now }
    {
        self.watches.len()
    }

    /// Returns the clause of the watch at position `at`.
    #[inline(always)] // called for each watch that propagation goes through
    pub fn cref(&self, at: usize) -> ClauseRef
        requires { at < length self.now }
        ensures { result ≡ (slice_index_or self.now at no_watch).cref }
    {
        let watch = &self.watches[at];
        watch.cref
    }

    /// Returns the blocking literal of the watch at position `at`.
    #[inline(always)] // called for each watch that propagation goes through
    pub fn blocking(&self, at: usize) -> Lit
        requires { at < length self.now }
        ensures { result ≡ (slice_index_or self.now at no_watch).blocking }
    {
        let watch = &self.watches[at];
        watch.blocking
    }

    /// Replaces the watch at position `at` with a watch of `cref` that has the blocking literal `blocking`.
    #[inline(always)] // called for each watch that propagation goes through
    pub fn set(&mut self, at: usize, cref: ClauseRef, blocking: Lit)
        requires { at < length self.old }
        ensures { self.new ≡ slice_set self.old at (watch_on cref blocking) }
    {
        self.watches[at] = Watch { cref, blocking };
    }

    /// Appends a watch.
    #[inline(always)] // called for each clause that gets a new watch in propagation
    pub fn push(&mut self, watch: Watch) -> Result<(), AllocError>
        ensures { self.new ≡ (if is_ok result then self.old ++ watch ∷ [] else self.old) }
    {
        if self.watches.len() < self.watches.capacity() {
            self.watches.push_reserved(watch);
            return Ok(());
        }
        push_full(&mut self.watches, watch)
    }

    /// Removes the last watch.
    fn pop(&mut self)
        ensures { self.new ≡ take (length self.old - 1) self.old }
    {
        let _ = self.watches.pop();
    }

    /// Keeps the first `kept` watches, and removes the others.
    #[inline(always)] // called for each literal that propagation goes through
    pub fn keep(&mut self, kept: usize)
        ensures { self.new ≡ take kept self.old }
    {
        self.watches.truncate(kept);
    }

    /// Removes the watches from position `kept` up to, but not including, position `at`.
    #[inline(never)] // called once for each conflict; inlined, its loop takes registers of the walk
    pub fn cut(&mut self, kept: usize, at: usize)
        requires order { kept ≤ at }
        requires within { at ≤ length self.old }
        ensures { self.new ≡ take kept self.old ++ drop at self.old }
    {
        let end = self.len();
        let mut to = kept;
        for from in at..end {
            let watch = self.watches[from];
            self.watches[to] = watch;
            to += 1;
        }
        self.watches.truncate(to);
    }

    /// Removes all watches.
    pub fn clear(&mut self)
        ensures { self.new ≡ [] }
    {
        self.watches.clear();
    }
}

/// For every literal, the watches to visit when the literal becomes true.
///
/// Contracts see a `WatchState`: the lists, indexed by literal code, and whether they are enabled.
#[derive(Drop)]
pub struct Watchlists {
    alloc: Global,
    /// The lists of the first literals, with capacity for the lists of all literals. The missing lists are empty; they
    /// are created when one of them is first needed.
    watches: Vec<WatchList>,
    /// The number of literals.
    count: usize,
    enabled: bool,
}

impl Model for Watchlists {
    ghost use Rattle.std.specs.Prelude.{vec_capacity};
    ghost use Rattle.sat_parts.specs.prop.WatchLists.{WatchState, with_lists_up_to, HasListRoom};

    ghost Value = { WatchState };

    ghost view = { λ w. record { lists = with_lists_up_to w.count w.watches.items; enabled = w.enabled } };

    ghost invariant = { λ w. HasListRoom w.count (vec_capacity w.watches) w.watches.items };
}

impl Watchlists {
    ghost use Rattle.std.specs.Borrow.{sem};
    ghost use Rattle.sat_parts.specs.prop.Lending.{LendsList};

    /// Returns enabled watch lists without any literals. Never allocates.
    pub fn new(alloc: Global) -> Watchlists
        ensures lists { result.lists ≡ [] }
        ensures enabled { result.enabled ≡ true }
    {
        Watchlists {
            alloc,
            watches: Vec::new(alloc),
            count: 0,
            enabled: true,
        }
    }

    /// Sets the number of variables. New literals have no watches.
    pub fn set_var_count(&mut self, count: usize) -> Result<(), AllocError>
        requires { count ≤ var_limit }
        ensures done { OnOk result (self.new ≡ with_lists (2 * count) self.old) }
        ensures same { OnErr result (self.new ≡ self.old) }
    {
        let literals = 2 * count;
        let more = literals.saturating_sub(self.watches.len());
        self.watches.reserve(more)?;
        self.watches.truncate(literals);
        self.count = literals;
        Ok(())
    }

    /// Returns `true` if the lists are enabled.
    pub fn enabled(&self) -> bool
        ensures { result ≡ self.now.enabled }
    {
        self.enabled
    }

    /// Disables the lists. They are not updated until `enable_watchlists` rebuilds them.
    pub fn disable(&mut self)
        ensures { self.new ≡ record self.old { enabled = false } }
    {
        self.enabled = false;
    }

    /// Returns a mutable reference to the watches of a literal.
    pub fn watched_by_mut(&mut self, lit: Lit) -> &mut WatchList
        requires { lit < length self.old.lists }
        ensures value { result.now ≡ watches_of self.old.lists lit }
        ensures* writes_back { sem 𝓛 (LendsList self.entry lit result) }
    {
        let code = lit.code();
        make_list(self.alloc, &mut self.watches, self.count, code);
        &mut self.watches[code]
    }

    /// Appends a watch to the watches of a literal.
    #[inline(always)] // called for each clause that gets a new watch in propagation
    pub fn add_watch(&mut self, lit: Lit, watch: Watch) -> Result<(), AllocError>
        requires { lit < length self.old.lists }
        ensures done { OnOk result (self.new ≡ with_watch lit watch self.old) }
        ensures same { OnErr result (self.new ≡ self.old) }
    {
        let code = lit.code();
        make_list(self.alloc, &mut self.watches, self.count, code);
        let list = &mut self.watches[code];
        list.push(watch)?;
        Ok(())
    }

    /// Removes the watches of a literal, and returns them.
    pub(crate) fn take_list(&mut self, alloc: Global, lit: Lit) -> WatchList
        requires { lit < length self.old.lists }
        ensures list { result ≡ slice_index_or self.old.lists lit [] }
        ensures rest { self.new ≡ record self.old { lists = slice_set self.old.lists lit [] } }
    {
        let code = lit.code();
        if code >= self.watches.len() {
            return WatchList::new(alloc);
        }
        let list = &mut self.watches[code];
        mem::replace(list, WatchList::new(alloc))
    }

    /// Replaces the watches of a literal.
    pub(crate) fn put_list(&mut self, lit: Lit, list: WatchList)
        requires { lit < length self.old.lists }
        ensures { self.new ≡ record self.old { lists = slice_set self.old.lists lit list } }
    {
        let code = lit.code();
        if code >= self.watches.len() && list.len() == 0 {
            return;
        }
        make_list(self.alloc, &mut self.watches, self.count, code);
        self.watches[code] = list;
    }

    /// Removes the last watch of a literal.
    fn pop_watch(&mut self, lit: Lit)
        requires { lit < length self.old.lists }
        ensures { self.new ≡ record self.old { lists = without_last_watch lit self.old.lists } }
    {
        let code = lit.code();
        if code >= self.watches.len() {
            return;
        }
        let list = &mut self.watches[code];
        list.pop();
    }

    /// Watches two literals of a clause. Does nothing if the lists are disabled.
    pub fn watch_clause(&mut self, cref: ClauseRef, lits: [Lit; 2]) -> Result<(), AllocError>
        requires first { negated (slice_index_or lits 0 0) < length self.old.lists }
        requires second { negated (slice_index_or lits 1 0) < length self.old.lists }
        ensures done { OnOk result (self.new ≡ with_clause_watches cref (slice_index_or lits 0 0)
            (slice_index_or lits 1 0) self.old) }
        ensures same { OnErr result (self.new ≡ self.old) }
    {
        if !self.enabled {
            return Ok(());
        }
        let [first, second] = lits;
        self.add_watch(
            !first,
            Watch {
                cref,
                blocking: second,
            },
        )?;
        let other = Watch {
            cref,
            blocking: first,
        };
        if let Err(error) = self.add_watch(!second, other) {
            self.pop_watch(!first);
            return Err(error);
        }
        Ok(())
    }
}

/// Appends a watch to a list that may be full.
#[cold]
#[inline(never)] // keeps what growing needs out of the walk's registers
fn push_full(watches: &mut Vec<Watch>, watch: Watch) -> Result<(), AllocError>
    ensures { watches.new.items ≡ (if is_ok result then watches.old.items ++ watch ∷ [] else watches.old.items) }
{
    watches.push(watch)?;
    Ok(())
}

/// Creates the missing lists of literals. Capacity for them must have been reserved.
#[cold]
#[inline(never)] // called for the first watch, and for the first one after variables were added
fn widen(alloc: Global, watches: &mut Vec<WatchList>, count: usize)
    requires { HasListRoom count (vec_capacity watches.old) watches.old.items }
    ensures lists { watches.new.items ≡ with_lists_up_to count watches.old.items }
    ensures capacity { vec_capacity watches.new ≡ vec_capacity watches.old }
{
    for _added in watches.len()..count {
        watches.push_reserved(WatchList::new(alloc));
    }
}

/// Creates all missing lists if the list of the literal with this code is missing.
#[inline(always)] // called for each clause that gets a new watch in propagation
fn make_list(alloc: Global, watches: &mut Vec<WatchList>, count: usize, code: usize)
    requires room { HasListRoom count (vec_capacity watches.old) watches.old.items }
    requires below { code < count }
    ensures room { HasListRoom count (vec_capacity watches.new) watches.new.items }
    ensures made { code < length watches.new.items }
    ensures same { with_lists_up_to count watches.new.items ≡ with_lists_up_to count watches.old.items }
{
    if code >= watches.len() {
        widen(alloc, watches, count);
    }
}

/// Empties all lists of a vector.
fn clear_all(watches: &mut Vec<WatchList>)
    ensures size { length watches.new.items ≡ length watches.old.items }
    ensures empty { (l : ℕ) → watches_of watches.new.items l ≡ [] }
    ensures capacity { vec_capacity watches.new ≡ vec_capacity watches.old }
{
    let end = watches.len();
    for at in 0..end {
        let list = &mut watches[at];
        list.clear();
    }
}

impl Watchlists {
    /// Empties all lists, and enables them.
    fn clear_lists(&mut self)
        ensures size { length self.new.lists ≡ length self.old.lists }
        ensures empty { (l : ℕ) → watches_of self.new.lists l ≡ [] }
        ensures enabled { self.new.enabled ≡ true }
    {
        clear_all(&mut self.watches);
        self.enabled = true;
    }
}

/// Rebuilds the watch lists if they are disabled: every live clause watches its first two literals.
///
/// If memory runs out, the watch lists must not be used again.
pub fn enable_watchlists(
    watchlists: &mut Watchlists,
    clauses: &ClauseAlloc,
    db: &ClauseDb,
) -> Result<(), AllocError>
    ghost count: { ℕ }
    requires holds_clauses { HoldsClauses clauses.now db.now.refs }
    requires clauses { AreLongClauses clauses.now (live_refs clauses.now db.now.refs) count }
    requires room { length watchlists.old.lists ≡ 2 * count }
    ensures kept { IsTrue watchlists.old.enabled → OnOk result (watchlists.new ≡ watchlists.old) }
    ensures built { watchlists.old.enabled ≡ false
        → OnOk result (LiveClausesAreWatched clauses.now db.now.refs watchlists.new.lists count) }
    ensures enabled { OnOk result (watchlists.new.enabled ≡ true) }
{
    if watchlists.enabled {
        return Ok(());
    }
    watchlists.clear_lists();
    for cref in &db.clauses {
        let cref = *cref;
        if !clauses.header(cref).deleted() {
            let lits = [clauses.lit(cref, 0), clauses.lit(cref, 1)];
            watchlists.watch_clause(cref, lits)?;
        }
    }
    Ok(())
}
