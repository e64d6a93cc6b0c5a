//! The working state of conflict analysis.
ghost use Rattle.std.specs.Prelude.{ℕ, ◌≡◌, ◌-◌, replicate, ◌<◌, ◌≤◌, ◌++◌, length, slice_index, slice_index_or, true};
ghost use Rattle.std.specs.Prelude.{false, [], ◌∷◌, reverse, take, slice_set, OnOk};
ghost use Rattle.std.specs.List.Sorted.{IsPermutation, IsNonDecreasingBy};
ghost use Rattle.sat_base.specs.values.Literals.{variable};
ghost use Rattle.sat_parts.specs.clause.Glue.{FlagsAreClear, VariablesBelow, LitsHaveNodes};
ghost use Rattle.sat_solver.specs.analyze_conflict.AnalysisState.{AnalysisState, with_seen_literals, unflagged};
ghost use Rattle.sat_solver.specs.analyze_conflict.AnalysisState.{with_reason_used};
ghost use Rattle.sat_solver.specs.analyze_conflict.AnalysisState.{with_core_literal, begun_analysis, begun_core};
ghost use Rattle.sat_solver.specs.analyze_conflict.AnalysisState.{with_first};
ghost use Rattle.sat_solver.specs.analyze_conflict.Derivation.{FlagsAmong, PutsHighestSecond};
ghost use Rattle.sat_solver.specs.analyze_conflict.Minimization.{IsSortedBefore, depth_in, with_mark, with_used};
ghost use Rattle.sat_solver.specs.analyze_conflict.Minimization.{UndoesMarks};

use crate::analyze_conflict::adding::{add_lits, add_long_lits, make_room};
use crate::analyze_conflict::lists::{order_used, put_highest_second, unflag};
use sat_base::{Lit, Var};
use sat_parts::{Conflict, ImplGraph, Reason};
use sat_store::{ClauseRef, Lits};
use std::alloc::{AllocError, Global};
use std::marker::Model;

/// The lists of an analysis, whose memory the next analysis reuses, and a flag for every variable. Contracts describe
/// this as an `AnalysisState`.
#[derive(Drop)]
pub struct AnalyzeConflict {
    clause: Vec<Lit>,
    used: Vec<Lit>,
    seen: Vec<Var>,
    antecedents: Vec<ClauseRef>,
    core: Vec<Lit>,
    flags: Vec<bool>,

    /// Sort keys of the used literals: the depth in the high bits, and the literal's code in the low bits.
    keys: Vec<u64>,
    pending: usize,
}

impl Model for AnalyzeConflict {
    ghost use Rattle.sat_solver.specs.analyze_conflict.AnalysisState.{AnalysisState, analysis_state};

    ghost Value = { AnalysisState };

    ghost view = { λ a. analysis_state a.clause.items a.used.items a.seen.items a.antecedents.items a.core.items a.flags.items
        a.pending };
}

impl AnalyzeConflict {
    /// Creates an analysis without variables. Never allocates.
    pub fn new(alloc: Global) -> AnalyzeConflict
        ensures { result.flags ≡ [] }
    {
        AnalyzeConflict {
            clause: Vec::new(alloc),
            used: Vec::new(alloc),
            seen: Vec::new(alloc),
            antecedents: Vec::new(alloc),
            core: Vec::new(alloc),
            flags: Vec::new(alloc),
            keys: Vec::new(alloc),
            pending: 0,
        }
    }

    /// Sets the number of variables to `count`. Variables that are added are not flagged.
    pub fn set_var_count(&mut self, count: usize) -> Result<(), AllocError>
        ensures size { OnOk result (length self.new.flags ≡ count) }
        ensures clear { OnOk result (FlagsAreClear self.old.flags → FlagsAreClear self.new.flags) }
    {
        self.resize_flags(count)
    }

    /// Sets the number of flags to `count`: removes flags from the end, or appends cleared flags.
    fn resize_flags(&mut self, count: usize) -> Result<(), AllocError>
        ensures size { OnOk result (length self.new.flags ≡ count) }
        ensures flags { OnOk result (self.new.flags ≡ take count self.old.flags
            ++ replicate (count - length self.old.flags) false) }
    {
        self.flags.resize(count, false)
    }

    /// Returns the literals of the learned clause.
    pub fn clause(&self) -> &[Lit]
        ensures { result.now ≡ self.now.clause }
    {
        &self.clause
    }

    /// Returns the literals whose reasons were used. They are in trail order once an analysis is complete.
    pub fn used(&self) -> &[Lit]
        ensures { result.now ≡ self.now.used }
    {
        &self.used
    }

    /// Returns the variables of the literals that were added to the analysis, without repetitions, in the order in
    /// which they were added.
    pub fn seen(&self) -> &[Var]
        ensures { result.now ≡ self.now.seen }
    {
        &self.seen
    }

    /// Returns the antecedents, which are long clauses: the falsified clause if it is long, and then the reasons for
    /// literals, going backwards from the end of the trail.
    pub fn antecedents(&self) -> &[ClauseRef]
        ensures { result.now ≡ self.now.antecedents }
    {
        &self.antecedents
    }

    /// Returns the core of an analysis of assumptions: assumptions that contradict the clauses, beginning with the one
    /// that failed.
    pub fn core(&self) -> &[Lit]
        ensures { result.now ≡ self.now.core }
    {
        &self.core
    }

    /// Returns the number of flagged literals that are still to be resolved.
    pub fn pending(&self) -> usize
        ensures { result ≡ self.now.pending }
    {
        self.pending
    }

    /// Clears the lists, except for the sort keys, and sets the number of pending literals to 0. The flags
    /// are unchanged.
    fn clear(&mut self)
        ensures { self.new ≡ record self.old
            { clause = []; used = []; seen = []; antecedents = []; core = []; pending = 0 } }
    {
        self.clause.clear();
        self.used.clear();
        self.seen.clear();
        self.antecedents.clear();
        self.core.clear();
        self.pending = 0;
    }

    /// Begins an analysis with a falsified clause, whose literals are still to be added. The flags are unchanged.
    pub(crate) fn begin(&mut self, conflict: &Conflict) -> Result<(), AllocError>
        ensures { OnOk result (self.new ≡ begun_analysis conflict.now self.old) }
    {
        self.clear();
        if let Conflict::Long(cref) = conflict {
            self.antecedents.push(*cref)?;
            return Ok(());
        }
        Ok(())
    }

    /// Begins an analysis with an assumption that failed, and adds the assumption to the core. The flags are unchanged.
    pub(crate) fn begin_core(&mut self, failed: Lit) -> Result<(), AllocError>
        ensures { OnOk result (self.new ≡ begun_core failed self.old) }
    {
        self.clear();
        self.core.push(failed)?;
        Ok(())
    }

    /// Adds the false literals `lits`, one after another. A literal whose level is 0 or whose variable is already
    /// flagged changes nothing.
    ///
    /// A literal below level `top` is added to the learned clause; any other literal is still to be resolved.
    #[inline(always)] // called for each clause that analysis uses
    pub(crate) fn add_own(
        &mut self,
        graph: &ImplGraph,
        top: usize,
        lits: &[Lit],
    ) -> Result<(), AllocError>
        requires nodes { LitsHaveNodes graph.now lits.now }
        requires flags { length self.old.flags ≡ length graph.now }
        ensures seen { OnOk result (self.new ≡ with_seen_literals graph.now top lits.now self.old) }
        ensures flags { OnOk result (length self.new.flags ≡ length self.old.flags) }
    {
        make_room(&mut self.clause, &mut self.seen, lits.len())?;
        add_lits(
            &mut self.clause,
            &mut self.seen,
            &mut self.flags,
            &mut self.pending,
            graph,
            top,
            lits,
        );
        Ok(())
    }

    /// Adds the false literals of a long clause, as `add_own` does.
    #[inline(always)] // called for each clause that analysis uses
    pub(crate) fn add_long(
        &mut self,
        graph: &ImplGraph,
        top: usize,
        lits: &Lits<'_>,
    ) -> Result<(), AllocError>
        requires nodes { LitsHaveNodes graph.now lits.now }
        requires flags { length self.old.flags ≡ length graph.now }
        ensures { OnOk result (self.new ≡ with_seen_literals graph.now top lits.now self.old) }
    {
        make_room(&mut self.clause, &mut self.seen, lits.len())?;
        add_long_lits(
            &mut self.clause,
            &mut self.seen,
            &mut self.flags,
            &mut self.pending,
            graph,
            top,
            lits,
        );
        Ok(())
    }

    /// Returns the position of the last flagged literal in `lits[..before]`, which must contain such a literal.
    pub(crate) fn last_flagged(&self, lits: &[Lit], before: usize) -> usize
        requires within { before ≤ length lits.now }
        requires flags { (p : ℕ) → p < before → variable (slice_index lits.now p) < length self.now.flags }
        requires some { (p : ℕ) × ((p < before)
            × (slice_index_or self.now.flags (variable (slice_index lits.now p)) false ≡ true)) }
        ensures within { result < before }
        ensures flagged { slice_index_or self.now.flags (variable (slice_index lits.now result)) false ≡ true }
        ensures others { (p : ℕ) → result < p → p < before
            → slice_index_or self.now.flags (variable (slice_index lits.now p)) false ≡ false }
    {
        let mut at = before;
        loop {
            at -= 1;
            if self.flags[lits[at].index()] {
                return at;
            }
        }
    }

    /// Clears the flag of a true literal, which then no longer has to be resolved.
    pub(crate) fn unflag_pending(&mut self, lit: Lit)
        requires flag { variable lit < length self.old.flags }
        ensures { self.new ≡ unflagged lit self.old }
    {
        self.flags[lit.index()] = false;
        self.pending = self.pending.saturating_sub(1);
    }

    /// Uses `reason`, the reason for the true literal `lit`. Clears the literal's flag, and adds the literal to the
    /// used literals. If the reason is a long clause, adds it to the antecedents.
    #[inline(always)] // called for each literal that is resolved
    pub(crate) fn use_reason(&mut self, reason: &Reason, lit: Lit) -> Result<(), AllocError>
        requires flag { variable lit < length self.old.flags }
        ensures { OnOk result (self.new ≡ with_reason_used reason.now lit self.old) }
    {
        self.unflag_pending(lit);
        make_room(&mut self.used, &mut self.antecedents, 1)?;
        self.used.push_reserved(lit);
        if let Reason::Long(cref) = reason {
            self.antecedents.push_reserved(*cref);
            return Ok(());
        }
        Ok(())
    }

    /// Adds a literal to the core.
    pub(crate) fn add_core(&mut self, lit: Lit) -> Result<(), AllocError>
        ensures { OnOk result (self.new ≡ record self.old { core = self.old.core ++ lit ∷ [] }) }
    {
        self.core.push(lit)?;
        Ok(())
    }

    /// Clears the flag of a true literal, and adds the literal to the core.
    pub(crate) fn add_decision_to_core(&mut self, lit: Lit) -> Result<(), AllocError>
        requires flag { variable lit < length self.old.flags }
        ensures { OnOk result (self.new ≡ with_core_literal lit self.old) }
    {
        self.unflag_pending(lit);
        self.core.push(lit)?;
        Ok(())
    }

    /// Adds a literal to the learned clause, and swaps it with the clause's first literal.
    pub(crate) fn add_first(&mut self, lit: Lit) -> Result<(), AllocError>
        ensures { OnOk result (self.new ≡ with_first lit self.old) }
    {
        let last = self.clause.len();
        self.clause.push(lit)?;
        self.clause.swap(0, last);
        Ok(())
    }

    /// Clears the flags of the learned clause's literals and of the used literals. No other variable may be flagged.
    pub(crate) fn clear_flags(&mut self)
        requires clause { VariablesBelow self.old.clause (length self.old.flags) }
        requires used { VariablesBelow self.old.used (length self.old.flags) }
        requires only { FlagsAmong self.old }
        ensures clear { FlagsAreClear self.new.flags }
        ensures same { self.new ≡ record self.old { flags = self.new.flags } }
        ensures size { length self.new.flags ≡ length self.old.flags }
    {
        unflag(&mut self.flags, &self.clause, 0);
        unflag(&mut self.flags, &self.used, 0);
    }

    /// Returns `true` if the literal's variable is flagged. During minimization, only variables of the learned clause
    /// and of used literals are flagged.
    pub(crate) fn is_flagged(&self, lit: Lit) -> bool
        requires flag { variable lit < length self.now.flags }
        ensures { result ≡ slice_index_or self.now.flags (variable lit) false }
    {
        self.flags[lit.index()]
    }

    /// Flags a false literal, and adds its negation to the used literals.
    pub(crate) fn mark(&mut self, lit: Lit) -> Result<(), AllocError>
        requires flag { variable lit < length self.old.flags }
        ensures { OnOk result (self.new ≡ with_mark lit self.old) }
    {
        self.flags[lit.index()] = true;
        self.used.push(!lit)?;
        Ok(())
    }

    /// Adds a true literal to the used literals.
    pub(crate) fn add_used(&mut self, lit: Lit) -> Result<(), AllocError>
        ensures { OnOk result (self.new ≡ with_used lit self.old) }
    {
        self.used.push(lit)?;
        Ok(())
    }

    /// Removes the used literals from position `top` on. Clears the flags of all removed literals except the first.
    pub(crate) fn undo(&mut self, top: usize)
        requires top { top < length self.old.used }
        requires flags { VariablesBelow self.old.used (length self.old.flags) }
        ensures { UndoesMarks top self.old self.new }
    {
        unflag(&mut self.flags, &self.used, top + 1);
        self.used.truncate(top);
    }

    /// Writes `lit` to position `at` of the learned clause.
    pub(crate) fn set_clause_lit(&mut self, at: usize, lit: Lit)
        requires { at < length self.old.clause }
        ensures { self.new ≡ record self.old { clause = slice_set self.old.clause at lit } }
    {
        self.clause[at] = lit;
    }

    /// Truncates the learned clause to its first `len` literals.
    pub(crate) fn cut(&mut self, len: usize)
        ensures { self.new ≡ record self.old { clause = take len self.old.clause } }
    {
        self.clause.truncate(len);
    }

    /// Moves to position 1 of the learned clause a literal of the highest level among all its literals except the
    /// first. Returns that level, or 0 if the clause has fewer than two literals.
    pub(crate) fn put_second(&mut self, graph: &ImplGraph) -> usize
        requires nodes { LitsHaveNodes graph.now self.old.clause }
        ensures second { PutsHighestSecond graph.now self.old.clause self.new.clause result }
        ensures same { self.new ≡ record self.old { clause = self.new.clause } }
    {
        if self.clause.len() < 2 {
            return 0;
        }
        put_highest_second(&mut self.clause, graph)
    }

    /// Sorts the used literals in trail order. The first `resolved` used literals, which were resolved, must be in
    /// reverse trail order. No other used literal may come after a resolved literal on the trail.
    pub(crate) fn order_used(
        &mut self,
        graph: &ImplGraph,
        resolved: usize,
    ) -> Result<(), AllocError>
        requires { IsSortedBefore graph.now self.old.used resolved }
        ensures permutation { OnOk result (IsPermutation self.old.used self.new.used) }
        ensures rising { OnOk result (IsNonDecreasingBy (depth_in graph.now) self.new.used) }
        ensures same { self.new ≡ record self.old { used = self.new.used } }
    {
        order_used(&mut self.used, graph, resolved, &mut self.keys)
    }

    /// Reverses the list of used literals.
    pub(crate) fn reverse_used(&mut self)
        ensures { self.new ≡ record self.old { used = reverse self.old.used } }
    {
        self.used.reverse();
    }
}
