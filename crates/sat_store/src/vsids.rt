//! VSIDS: a queue of variables, ordered by activity.
//!
//! A decision picks the variable with the highest activity. Conflicts raise activities. Activities decay relative to
//! later bumps: each conflict raises activities by more than earlier ones did. If the numbers grow too large, all of
//! them are rescaled.
ghost use Rattle.std.specs.Prelude.{◌≡◌, ◌<◌, ◌≤◌, ◌+◌, ◌*◌, ◌-◌, ◌/◌, ◌^◌, OnOk, OnErr, true, false, length, map, max};
ghost use Rattle.std.specs.Prelude.{slice_set};
ghost use Rattle.sat_base.specs.values.Literals.{var_limit};
ghost use Rattle.sat_store.specs.heap.Heap.{with_rescaled_key};
ghost use Rattle.sat_store.specs.heap.Vsids.{no_variables, with_variables, GrowsQueue, bumped, decayed, with_available};
ghost use Rattle.sat_store.specs.heap.Vsids.{is_available};

mod heap;

use self::heap::{Entry, add_variables, heapify, put_in, sift_up, take_out};
use sat_base::Var;
use std::alloc::{AllocError, Global};
use std::marker::Model;

/// All activities, and the bump, are below this limit.
const LIMIT: u64 = 1 << 60;

/// A priority queue of the available variables, ordered by activity. Available variables are those that may be picked.
///
/// Contracts see a `Queue`: which variables are available, all activities, how much a bump adds, and the decay factor.
#[derive(Drop)]
pub struct Vsids {
    /// All variables with their activities. The available variables come first and form a heap.
    heap: Vec<Entry>,

    /// The position of every variable in `heap`.
    positions: Vec<u32>,

    /// The number of available variables.
    available: usize,

    /// How much the next bump adds.
    bump: u64,

    /// The decay factor, in thousandths.
    decay: u64,
}

impl Model for Vsids {
    ghost use Rattle.std.specs.Prelude.{◌<◌, ◌≤◌, ◌^◌};
    ghost use Rattle.sat_store.specs.heap.Vsids.{Queue};
    ghost use Rattle.sat_store.specs.heap.Heap.{IsHeap, available_by_var, activities_by_var};

    ghost Value = { Queue };

    ghost view = { λ v. record {
      available = available_by_var v.available v.positions.items;
      activities = activities_by_var v.heap.items v.positions.items;
      bump = v.bump;
      decay = v.decay;
    } };

    ghost invariant = { λ v. IsHeap v.heap.items v.positions.items v.available × (0 < v.bump) × (v.bump < 2 ^ 60)
        × (500 ≤ v.decay) × (v.decay ≤ 999) };
}

impl Vsids {
    /// Returns a queue without variables, with a decay factor of 950 thousandths. Never allocates.
    pub fn new(alloc: Global) -> Vsids
        ensures { result ≡ no_variables }
    {
        Vsids {
            heap: Vec::new(alloc),
            positions: Vec::new(alloc),
            available: 0,
            bump: 1 << 20,
            decay: 950,
        }
    }

    /// Raises the number of variables to `count`. A lower count changes nothing. New variables are not available.
    pub fn set_var_count(&mut self, count: usize) -> Result<(), AllocError>
        requires { count ≤ var_limit }
        ensures counted { OnOk result (self.new ≡ with_variables count self.old) }
        ensures grows { OnOk result (GrowsQueue count self.old self.new) }
        ensures kept { OnErr result (self.new ≡ self.old) }
    {
        self.raise_count(count)
    }

    /// Raises the number of variables. The contract of `set_var_count` is proved from this contract.
    fn raise_count(&mut self, count: usize) -> Result<(), AllocError>
        requires { count ≤ var_limit }
        ensures counted { OnOk result (self.new ≡ with_variables count self.old) }
        ensures kept { OnErr result (self.new ≡ self.old) }
    {
        let old = self.heap.len();
        if count <= old {
            return Ok(());
        }
        self.heap.reserve(count - old)?;
        self.positions.reserve(count - old)?;
        add_variables(&mut self.heap, &mut self.positions, count);
        Ok(())
    }

    /// Sets the decay factor, in thousandths.
    pub fn set_decay(&mut self, decay: u32)
        requires low { 500 ≤ decay }
        requires high { decay ≤ 999 }
        ensures { self.new ≡ record self.old { decay = decay } }
    {
        self.decay = u64::from(decay);
    }

    /// Raises the activity of a variable. If the activity reaches 2^60, all activities and the bump are rescaled.
    pub fn bump(&mut self, var: Var)
        requires { var < length self.old.available }
        ensures queue { self.new ≡ bumped var self.old }
        ensures available { self.new.available ≡ self.old.available }
    {
        let at = self.positions[var.index()] as usize;
        let raised = self.heap[at].key + self.bump;
        self.heap[at].key = raised;
        if raised >= LIMIT {
            self.bump = rescale(&mut self.heap, self.bump);
            heapify(&mut self.heap, &mut self.positions, self.available);
            return;
        }
        if at < self.available {
            sift_up(&mut self.heap, &mut self.positions, self.available, at);
        }
    }

    /// Lets all activities decay, by making later bumps add more. If the bump reaches 2^60, the bump and all activities
    /// are rescaled.
    pub fn decay(&mut self)
        ensures queue { self.new ≡ decayed self.old }
        ensures available { self.new.available ≡ self.old.available }
    {
        let later = self.bump / self.decay * 1000
            + (self.bump % self.decay * 1000 + self.decay - 1) / self.decay;
        if later >= LIMIT {
            self.bump = rescale(&mut self.heap, later);
            heapify(&mut self.heap, &mut self.positions, self.available);
            return;
        }
        self.bump = later;
    }

    /// Sets the activity of a variable to 0. The variable must not be available.
    pub fn reset(&mut self, var: Var)
        requires within { var < length self.old.available }
        requires unavailable { is_available self.old var ≡ false }
        ensures { self.new ≡ record self.old { activities = slice_set self.old.activities var 0 } }
    {
        let at = self.positions[var.index()] as usize;
        self.heap[at].key = 0;
    }

    /// Makes a variable unavailable, so that it is no longer picked.
    pub fn make_unavailable(&mut self, var: Var)
        requires { var < length self.old.available }
        ensures { self.new ≡ with_available var false self.old }
    {
        let at = self.positions[var.index()] as usize;
        if at < self.available {
            take_out(&mut self.heap, &mut self.positions, self.available, at);
            self.available -= 1;
        }
    }

    /// Makes a variable available, so that it may be picked.
    #[inline(always)] // called for each literal that is undone
    pub fn make_available(&mut self, var: Var)
        requires { var < length self.old.available }
        ensures { self.new ≡ with_available var true self.old }
    {
        let at = self.positions[var.index()] as usize;
        if at >= self.available {
            put_in(&mut self.heap, &mut self.positions, self.available, at);
            self.available += 1;
        }
    }
}

impl Iterator for Vsids {
    type Item = Var;

    ghost use Rattle.std.specs.Prelude.{count_by};
    ghost use Rattle.std.specs.Iterator.{at_most};
    ghost use Rattle.sat_store.specs.heap.Vsids.{Picks};

    ghost next_gives = { Picks };

    ghost remaining = { λ q. at_most (count_by (λ b. b) q.available) };

    /// Makes the available variable with the highest activity unavailable and returns it, or returns `None` if no
    /// variable is available.
    ///
    /// Among variables of equal activity, the one with the lowest index is returned.
    fn next(&mut self) -> Option<Var> {
        if self.available == 0 {
            return None;
        }
        let first = Var::from_index(self.heap[0].var as usize);
        take_out(&mut self.heap, &mut self.positions, self.available, 0);
        self.available -= 1;
        Some(first)
    }
}

/// Rescales all activities. Returns how much a bump adds on the new scale.
fn rescale(heap: &mut Vec<Entry>, bump: u64) -> u64
    ensures heap { heap.new.items ≡ map with_rescaled_key heap.old.items }
    ensures bump { result ≡ max (bump / 2 ^ 40) 1 }
{
    for entry in heap.iter_mut() {
        entry.key >>= 40;
    }
    (bump >> 40).max(1)
}
