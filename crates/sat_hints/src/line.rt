//! The lines of a hint text.

use sat_base::{Lit, Var};

/// A line. Its ids are below 2^64-1. In the text, each id is written as an ID, which is the id plus one.
#[derive(Clone, Copy)]
pub(crate) enum HintLine<'a> {
    /// `i ID LITS 0`: a clause of the formula.
    Input {
        id: u64,
        clause: &'a [Lit],
    },
    /// `d ID LITS 0 IDS 0`: a clause that follows from others. Under its negation, the clauses under `ids` are unit in
    /// turn, with the last one falsified.
    Derived {
        id: u64,
        clause: &'a [Lit],
        ids: &'a [u64],
    },
    /// `x ID 0`: a clause is removed.
    Removed {
        id: u64,
    },
    /// `f LITS 0 IDS 0`: literals that can't all be true. If they are assumed, the clauses under `ids` are unit in
    /// turn, with the last one falsified.
    Core {
        core: &'a [Lit],
        ids: &'a [u64],
    },
    /// `e VAR 0`: a variable becomes new. Its units are removed, and no other present clause contains the variable.
    Fresh {
        var: Var,
    },
}
