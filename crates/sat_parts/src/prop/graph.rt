//! The implication graph: the reason, the level and the position on the trail of every assigned variable.
ghost use Rattle.std.specs.Prelude.{◌≡◌, ◌<◌, ◌↔◌, [], length, IsTrue, OnOk, OnErr};
ghost use Rattle.sat_parts.specs.prop.Graphs.{node_of, with_node, with_nodes, removed_node, has_no_clause};

use sat_base::{Lit, Var};
use sat_store::ClauseRef;
use std::alloc::{AllocError, Global};
use std::marker::Model;

/// Why a literal is true.
#[derive(Clone, Copy, Debug, PartialEq, Eq)]
pub enum Reason {
    /// The literal is a unit, a decision or an assumption.
    Unit,
    /// The other literal of a binary clause is false.
    Binary([Lit; 1]),
    /// The literal is the first literal of the clause, whose other literals are false.
    Long(ClauseRef),
}

impl Reason {
    /// Returns `true` if the reason is not a clause: the literal is a unit, a decision or an assumption.
    pub fn is_unit(&self) -> bool
        ensures { result ≡ has_no_clause self.now }
    {
        match self {
            Reason::Unit => true,
            Reason::Binary(_) => false,
            Reason::Long(_) => false,
        }
    }
}

/// A falsified clause: all literals of the clause are false.
#[derive(Clone, Copy, Debug, PartialEq, Eq)]
pub enum Conflict {
    /// A binary clause.
    Binary([Lit; 2]),
    /// A long clause.
    Long(ClauseRef),
}

/// The reason, the level and the depth of an assigned variable.
///
/// The depth is the length of the trail just after the literal was added. A unit that was removed from the trail has
/// level 0 and depth 2^32 - 1.
#[derive(Clone, Copy)]
pub struct ImplNode {
    pub reason: Reason,
    pub level: u32,
    pub depth: u32,
}

/// A node for every variable, indexed by variable.
#[derive(Drop)]
pub struct ImplGraph {
    pub nodes: Vec<ImplNode>,
}

impl Model for ImplGraph {
    ghost use Rattle.std.specs.Prelude.{List};
    ghost use Rattle.sat_parts.specs.declared.prop.graph.ImplNode.{ImplNode};

    ghost Value = { List ImplNode };

    ghost view = { λ g. g.nodes.items };
}

impl ImplGraph {
    /// Returns a graph without variables. Never allocates.
    pub fn new(alloc: Global) -> ImplGraph
        ensures { result ≡ [] }
    {
        ImplGraph {
            nodes: Vec::new(alloc),
        }
    }

    /// Sets the number of variables.
    pub fn set_var_count(&mut self, count: usize) -> Result<(), AllocError>
        ensures done { OnOk result (self.new ≡ with_nodes count self.old) }
        ensures same { OnErr result (self.new ≡ self.old) }
    {
        let node = ImplNode {
            reason: Reason::Unit,
            level: 0,
            depth: 0,
        };
        self.nodes.resize(count, node)
    }

    /// Returns the reason for a variable's value.
    pub fn reason(&self, var: Var) -> Reason
        requires { var < length self.now }
        ensures { result ≡ (node_of self.now var).reason }
    {
        self.nodes[var.index()].reason
    }

    /// Returns the level of a variable.
    pub fn level(&self, var: Var) -> usize
        requires { var < length self.now }
        ensures { result ≡ (node_of self.now var).level }
    {
        self.nodes[var.index()].level as usize
    }

    /// Returns the depth of a variable: the length of the trail just after the variable's literal was added.
    pub fn depth(&self, var: Var) -> usize
        requires { var < length self.now }
        ensures { result ≡ (node_of self.now var).depth }
    {
        self.nodes[var.index()].depth as usize
    }

    /// Replaces the reason for a variable's value.
    pub fn update_reason(&mut self, var: Var, reason: Reason)
        requires { var < length self.old }
        ensures { self.new ≡ with_node var (record (node_of self.old var) { reason = reason }) self.old }
    {
        self.nodes[var.index()].reason = reason;
    }

    /// Marks a variable as one whose unit was removed from the trail.
    pub fn update_removed_unit(&mut self, var: Var)
        requires { var < length self.old }
        ensures { self.new ≡ with_node var removed_node self.old }
    {
        self.nodes[var.index()] = ImplNode {
            reason: Reason::Unit,
            level: 0,
            depth: u32::MAX,
        };
    }

    /// Returns `true` if a variable is marked as one whose unit was removed from the trail.
    pub fn is_removed_unit(&self, var: Var) -> bool
        requires { var < length self.now }
        ensures { IsTrue result ↔ ((node_of self.now var).depth ≡ 4294967295) }
    {
        self.nodes[var.index()].depth == u32::MAX
    }
}
