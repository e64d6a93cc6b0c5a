//! The trail: the literals that are true, in the order of assignment.
ghost use Rattle.std.specs.Prelude.{◌≡◌, ◌+◌, ◌-◌, ◌^◌, ◌<◌, ◌≤◌, ◌↔◌, ◌⊎◌, [], length, min, max, IsTrue, OnOk, OnErr};
ghost use Rattle.std.specs.Prelude.{MatchOption, slice_get, IfNone, IfSome};
ghost use Rattle.sat_base.specs.values.Literals.{var_limit, variable};
ghost use Rattle.sat_parts.specs.clause.Glue.{VariablesBelow};
ghost use Rattle.sat_parts.specs.prop.Values.{with_true_lit, IsUnassignedLit};
ghost use Rattle.sat_parts.specs.prop.Graphs.{enqueued_node, with_node};
ghost use Rattle.sat_parts.specs.prop.Trails.{IsTrail, PopsQueue, no_trail, level_zero_end, with_lit, with_level};
ghost use Rattle.sat_parts.specs.prop.Trails.{with_cleared};
ghost use Rattle.sat_parts.specs.prop.Trails.{without_levels_above};
ghost use Rattle.sat_parts.specs.prop.Undone.{with_values_lost, with_levels_undone, with_all_available};
ghost use Rattle.sat_parts.specs.prop.Undone.{lits_above_level};
ghost use Rattle.sat_parts.specs.prop.State.{StateIsConsistent};
ghost use Rattle.sat_parts.specs.prop.Ready.{state_of};
ghost use Rattle.sat_parts.specs.prop.Backtracked.{BacktrackEffectOn, BacktrackPreservesInvariant};
ghost use Rattle.sat_parts.specs.prop.Backtracked.{EnqueuePreservesInvariant, NewLevelPreservesInvariant};
ghost use Rattle.sat_parts.specs.prop.Backtracked.{KeepsReasonsUnit};

use crate::prop::assignment::Assignment;
use crate::prop::graph::{ImplGraph, ImplNode, Reason};
use sat_base::Lit;
use sat_store::Vsids;
use std::alloc::{AllocError, Global};
use std::marker::Model;

/// The true literals in the order of assignment, the queue of literals to propagate, and the starts of the levels.
///
/// Contracts see a `TrailState`.
#[derive(Drop)]
pub struct Trail {
    trail: Vec<Lit>,
    /// The position of the next literal to propagate.
    queue_head_pos: usize,
    /// For every level above 0, the position of its first literal.
    decisions: Vec<u32>,
    /// The number of literals that were removed by `clear`. The number saturates at 2^64 - 1.
    units_removed: usize,
    /// The number of literals for which there is capacity.
    room: usize,
}

impl Model for Trail {
    ghost use Rattle.std.specs.Prelude.{◌≤◌, vec_capacity};
    ghost use Rattle.sat_parts.specs.prop.Trails.{TrailState, trail_state, IsTrail};

    ghost Value = { TrailState };

    ghost view = { λ t. trail_state t.trail.items t.queue_head_pos t.decisions.items t.units_removed t.room };

    ghost invariant = { λ t. IsTrail (trail_state t.trail.items t.queue_head_pos t.decisions.items t.units_removed t.room)
        × (t.room ≤ vec_capacity t.trail) };
}

impl Trail {
    /// Returns an empty trail, without capacity. Never allocates.
    pub fn new(alloc: Global) -> Trail
        ensures { result ≡ no_trail }
    {
        Trail {
            trail: Vec::new(alloc),
            queue_head_pos: 0,
            decisions: Vec::new(alloc),
            units_removed: 0,
            room: 0,
        }
    }

    /// Reserves capacity for one literal of each of `count` variables. A lower count than before changes nothing.
    pub fn set_var_count(&mut self, count: usize) -> Result<(), AllocError>
        requires { count ≤ var_limit }
        ensures done { OnOk result (self.new ≡ record self.old { room = max self.old.room count }) }
        ensures same { OnErr result (self.new ≡ self.old) }
    {
        let more = count.saturating_sub(self.trail.len());
        self.trail.reserve(more)?;
        self.room = self.room.max(count);
        Ok(())
    }

    /// Returns the next literal to propagate, or `None` if the queue is empty.
    pub fn queue_head(&self) -> Option<Lit>
        ensures next { MatchOption result (self.now.head ≡ length self.now.lits)
            (λ l. slice_get self.now.lits self.now.head ≡ Some l) }
        ensures sound { IsTrail self.now }
    {
        self.trail.get(self.queue_head_pos).copied()
    }

    /// Removes the next literal from the queue and returns it, or returns `None` if the queue is empty. The literal
    /// stays on the trail.
    pub fn pop_queue(&mut self) -> Option<Lit>
        ensures none { IfNone result ((self.old.head ≡ length self.old.lits) × (self.new ≡ self.old)) }
        ensures next { IfSome result (λ l. PopsQueue self.old l self.new) }
    {
        if self.queue_head_pos == self.trail.len() {
            return None;
        }
        let head = self.trail[self.queue_head_pos];
        self.queue_head_pos += 1;
        Some(head)
    }

    /// Moves all literals on the trail back to the queue.
    pub fn reset_queue(&mut self)
        ensures { self.new ≡ record self.old { head = 0 } }
    {
        self.queue_head_pos = 0;
    }

    /// Returns the literals in the order of assignment, as a slice.
    pub fn trail(&self) -> &[Lit]
        ensures lits { result.now ≡ self.now.lits }
        ensures sound { IsTrail self.now }
    {
        &self.trail
    }

    /// Removes all literals from the trail. There must be no level above 0. `top_level_assignment_count` still counts
    /// the literals.
    pub fn clear(&mut self)
        requires { self.old.starts ≡ [] }
        ensures { self.new ≡ with_cleared self.old }
    {
        self.units_removed = self.units_removed.saturating_add(self.trail.len());
        self.trail.clear();
        self.queue_head_pos = 0;
    }

    /// Begins a level after the literals on the trail.
    pub fn new_decision_level(&mut self) -> Result<(), AllocError>
        requires { length self.old.starts + 1 < 2 ^ 32 }
        ensures done { OnOk result (self.new ≡ with_level self.old) }
        ensures same { OnErr result (self.new ≡ self.old) }
        ensures preserves { OnOk result (NewLevelPreservesInvariant self.old self.new) }
    {
        self.push_level()
    }

    /// Begins a level. The contract of `new_decision_level` is proved from this contract.
    fn push_level(&mut self) -> Result<(), AllocError>
        requires { length self.old.starts + 1 < 2 ^ 32 }
        ensures done { OnOk result (self.new ≡ with_level self.old) }
        ensures same { OnErr result (self.new ≡ self.old) }
    {
        let len = self.trail.len() as u32;
        self.decisions.push(len)?;
        Ok(())
    }

    /// Returns the current level: the number of levels above 0.
    pub fn current_level(&self) -> usize
        ensures level { result ≡ length self.now.starts }
        ensures sound { IsTrail self.now }
    {
        self.decisions.len()
    }

    /// Returns the number of literals at level 0, including those that `clear` has removed. The number saturates at
    /// 2^64 - 1.
    pub fn top_level_assignment_count(&self) -> usize
        ensures { result ≡ min (level_zero_end self.now + self.now.cleared) (2 ^ 64 - 1) }
    {
        let end = match self.decisions.first() {
            Some(start) => *start as usize,
            None => self.trail.len(),
        };
        end.saturating_add(self.units_removed)
    }

    /// Returns `true` if the queue is empty.
    pub fn fully_propagated(&self) -> bool
        ensures { IsTrue result ↔ (self.now.head ≡ length self.now.lits) }
    {
        self.queue_head_pos == self.trail.len()
    }
}

/// Makes an unassigned literal true, and appends it to the trail and to the queue. Never allocates.
#[inline(always)] // called for each literal that propagation finds
pub fn enqueue_assignment(
    assignment: &mut Assignment,
    graph: &mut ImplGraph,
    trail: &mut Trail,
    lit: Lit,
    reason: Reason,
)
    requires value { variable lit < length assignment.old.current }
    requires node { variable lit < length graph.old }
    requires open { IsUnassignedLit assignment.old.current lit }
    // If the state is consistent, there is room for every unassigned literal.
    requires room { StateIsConsistent (state_of assignment.old graph.old trail.old) ⊎ (length trail.old.lits < trail.old.room) }
    ensures value { assignment.new ≡ with_true_lit lit assignment.old }
    ensures node { graph.new ≡ with_node (variable lit) (enqueued_node trail.old reason) graph.old }
    ensures trail { trail.new ≡ with_lit lit trail.old }
    ensures agrees { StateIsConsistent (state_of assignment.old graph.old trail.old)
        → StateIsConsistent (state_of assignment.new graph.new trail.new) }
    ensures preserves { EnqueuePreservesInvariant lit reason
        assignment.old graph.old trail.old assignment.new graph.new trail.new }
{
    push_assignment(assignment, graph, trail, lit, reason);
}

/// Makes an unassigned literal true. The contract of `enqueue_assignment` is proved from this contract.
#[inline(always)] // called for each literal that propagation finds
fn push_assignment(
    assignment: &mut Assignment,
    graph: &mut ImplGraph,
    trail: &mut Trail,
    lit: Lit,
    reason: Reason,
)
    requires value { variable lit < length assignment.old.current }
    requires node { variable lit < length graph.old }
    requires open { IsUnassignedLit assignment.old.current lit }
    requires room { length trail.old.lits < trail.old.room }
    ensures value { assignment.new ≡ with_true_lit lit assignment.old }
    ensures node { graph.new ≡ with_node (variable lit) (enqueued_node trail.old reason) graph.old }
    ensures trail { trail.new ≡ with_lit lit trail.old }
{
    assignment.assign_lit(lit);
    trail.trail.push_reserved(lit);
    graph.nodes[lit.index()] = ImplNode {
        reason,
        level: trail.decisions.len() as u32,
        depth: trail.trail.len() as u32,
    };
}

/// Removes the values of the literals' variables, and makes the variables available again.
fn undo(assignment: &mut Assignment, vsids: &mut Vsids, lits: &[Lit])
    requires values { VariablesBelow lits.now (length assignment.old.current) }
    requires queue { VariablesBelow lits.now (length vsids.old.available) }
    ensures values { assignment.new ≡ with_values_lost lits.now assignment.old }
    ensures available { vsids.new ≡ with_all_available lits.now vsids.old }
{
    assignment.lose_all(lits);
    for lit in lits {
        vsids.make_available(lit.var());
    }
}

/// Undoes the levels above `level`. Does nothing if `level` is not lower than the current one. Never allocates.
///
/// The literals of these levels are removed from the trail, their variables become unassigned and available, and the
/// queue becomes empty.
pub fn backtrack(assignment: &mut Assignment, trail: &mut Trail, vsids: &mut Vsids, level: usize)
    requires values { VariablesBelow trail.old.lits (length assignment.old.current) }
    requires queue { VariablesBelow trail.old.lits (length vsids.old.available) }
    ensures same_values { length trail.old.starts ≤ level → assignment.new ≡ assignment.old }
    ensures same_trail { length trail.old.starts ≤ level → trail.new ≡ trail.old }
    ensures same_queue { length trail.old.starts ≤ level → vsids.new ≡ vsids.old }
    ensures values { level < length trail.old.starts → assignment.new ≡ with_levels_undone level trail.old assignment.old }
    ensures trail { level < length trail.old.starts → trail.new ≡ without_levels_above level trail.old }
    ensures available { level < length trail.old.starts
        → vsids.new ≡ with_all_available (lits_above_level level trail.old) vsids.old }
    ensures kept { BacktrackEffectOn level assignment.old trail.old assignment.new trail.new }
    ensures preserves { level < length trail.old.starts
        → BacktrackPreservesInvariant level assignment.old trail.old assignment.new trail.new }
    ensures turns { level < length trail.old.starts → KeepsReasonsUnit assignment.old trail.old assignment.new trail.new }
{
    if level >= trail.current_level() {
        return;
    }
    undo_levels(assignment, trail, vsids, level);
}

/// Undoes the levels above `level`, which must be lower than the current one.
fn undo_levels(assignment: &mut Assignment, trail: &mut Trail, vsids: &mut Vsids, level: usize)
    requires below { level < length trail.old.starts }
    requires values { VariablesBelow trail.old.lits (length assignment.old.current) }
    requires queue { VariablesBelow trail.old.lits (length vsids.old.available) }
    ensures values { assignment.new ≡ with_levels_undone level trail.old assignment.old }
    ensures trail { trail.new ≡ without_levels_above level trail.old }
    ensures available { vsids.new ≡ with_all_available (lits_above_level level trail.old) vsids.old }
{
    let start = trail.decisions[level] as usize;
    undo(assignment, vsids, &trail.trail[start..]);
    trail.queue_head_pos = start;
    trail.decisions.truncate(level);
    trail.trail.truncate(start);
}
