//! Checking the lines of a hint text, one after another.
ghost use Rattle.std.specs.Prelude.{◌≡◌, ◌≤◌, ◌+◌, ◌^◌, ◌-◌, ◌<◌, ℕ, [], None, Some, IfOk, OnErr, OnOk};
ghost use Rattle.sat_base.specs.text.Tokenizing.{capped};
ghost use Rattle.sat_checker.specs.LiteralSets.{canonical};
ghost use Rattle.sat_hints.specs.Lines.{Input, Derived, Removed, Core, Fresh, LineIsWithinLimits};
ghost use Rattle.sat_hints.specs.inner.LineReading.{line_of_view, IsId};
ghost use Rattle.sat_checker.specs.inner.AssumedRoom.{signed};
ghost use Rattle.sat_hints.specs.inner.LineChecking.{HasAcceptedLines, IsReadyChecker, SameExceptRoom, FollowsAccepted};
ghost use Rattle.sat_hints.specs.inner.LineChecking.{WhyNotRefuted};
ghost use Rattle.sat_hints.specs.inner.LineChecking.{StoresClause, LineResult, UncountedLineResult};

use crate::active_clauses::ActiveClauses;
use crate::answer::{HintVerdict, HintWhy};
use crate::line::HintLine;
use crate::propagating::conflict;
use sat_base::{Lit, Var};
use sat_checker::sorted_lits::{copy_canonical, is_strictly_increasing};
use sat_checker::{Assigned, make_room_for};
use std::alloc::{AllocError, Global};

/// The state after the lines so far, and buffers that are reused.
#[derive(Drop)]
pub(crate) struct LineChecker {
    active: ActiveClauses,
    /// The assumed literals. There is room for the literals of present clauses, and for their negations.
    assumed: Assigned,
    /// A buffer for the sorted literals of the next clause, which is used if the clause isn't sorted.
    set: Vec<Lit>,
    least_id: u64,
    empty: bool,
    cores: u64,
    lines: u64,
}

/// Returns the sorted set of the literals: `literals` itself if it is increasing, and otherwise a copy in `buffer`.
fn sorted_set<'a>(buffer: &'a mut Vec<Lit>, literals: &'a [Lit]) -> Result<&'a [Lit], AllocError>
    ensures { IfOk result (λ set. set.now ≡ canonical literals.now) }
{
    if is_strictly_increasing(literals) {
        return Ok(literals);
    }
    match copy_canonical(buffer, literals) {
        Ok(_signs) => Ok(buffer.as_slice()),
        Err(error) => Err(error),
    }
}

impl LineChecker {
    /// Returns a checker that has read no line. Never allocates.
    pub(crate) fn new(alloc: Global) -> LineChecker
        ensures ready { IsReadyChecker result }
        ensures taken { HasAcceptedLines result [] }
    {
        LineChecker {
            active: ActiveClauses::new(alloc),
            assumed: Assigned::new(alloc),
            set: Vec::new(alloc),
            least_id: 0,
            empty: false,
            cores: 0,
            lines: 0,
        }
    }

    /// Stores a clause under `id`, which must be above all earlier ids.
    fn store(&mut self, id: u64, clause: &[Lit]) -> Result<(), AllocError>
        requires ready { IsReadyChecker self.old }
        requires in_order { self.old.least_id ≤ id }
        requires within { IsId id }
        ensures { OnOk result (StoresClause self.old self.new id clause.now) }
    {
        let set = sorted_set(&mut self.set, clause)?;
        self.active.push(id, set)?;
        self.assumed.allow(self.active.present.near_limit());
        make_room_for(&mut self.assumed, set)?;
        self.least_id = id + 1;
        Ok(())
    }

    /// Returns why the clauses under `ids` do not lead to a conflict under the literals, or under their negations if
    /// `negate` is true. Returns `None` if they do, or if the literals include both signs of a variable and all clauses
    /// are present.
    fn refute(&mut self, literals: &[Lit], negate: bool, ids: &[u64]) -> Option<HintWhy>
        requires { IsReadyChecker self.old }
        ensures same { SameExceptRoom self.old self.new }
        ensures refutes { WhyNotRefuted self.old.active (signed negate literals.now) ids.now result }
    {
        conflict(&self.active, ids, literals, negate, &mut self.assumed)
    }

    /// Checks an `i` line. Returns why the line is at fault, or `None`.
    fn input(&mut self, id: u64, clause: &[Lit]) -> Result<Option<HintWhy>, AllocError>
        requires ready { IsReadyChecker self.old }
        requires within { IsId id }
        ensures takes { IfOk result (λ why. UncountedLineResult why self.old self.new (Input id clause.now)) }
        ensures on_error { OnErr result (FollowsAccepted self.old (Input id clause.now)) }
    {
        if id < self.least_id {
            return Ok(Some(HintWhy::IdOrder));
        }
        self.store(id, clause)?;
        Ok(None)
    }

    /// Checks a `d` line. Returns why the line is at fault, or `None`.
    fn derived(
        &mut self,
        id: u64,
        clause: &[Lit],
        ids: &[u64],
    ) -> Result<Option<HintWhy>, AllocError>
        requires ready { IsReadyChecker self.old }
        requires within { IsId id }
        ensures takes { IfOk result (λ why. UncountedLineResult why self.old self.new (Derived id clause.now ids.now)) }
        ensures on_error { OnErr result (FollowsAccepted self.old (Derived id clause.now ids.now)) }
    {
        if id < self.least_id {
            return Ok(Some(HintWhy::IdOrder));
        }
        match self.refute(clause, true, ids) {
            Some(why) => return Ok(Some(why)),
            None => {}
        }
        self.store(id, clause)?;
        self.empty = clause.is_empty() || self.empty;
        Ok(None)
    }

    /// Checks an `x` line. Returns why the line is at fault, or `None`.
    fn removed(&mut self, id: u64) -> Result<Option<HintWhy>, AllocError>
        requires { IsReadyChecker self.old }
        ensures takes { IfOk result (λ why. UncountedLineResult why self.old self.new (Removed id)) }
        ensures on_error { OnErr result (FollowsAccepted self.old (Removed id)) }
    {
        if self.active.remove(id)? {
            return Ok(None);
        }
        Ok(Some(HintWhy::UnknownId))
    }

    /// Checks an `f` line. Returns why the line is at fault, or `None`.
    fn core(&mut self, core: &[Lit], ids: &[u64]) -> Option<HintWhy>
        requires { IsReadyChecker self.old }
        ensures { UncountedLineResult result self.old self.new (Core core.now ids.now) }
    {
        match self.refute(core, false, ids) {
            Some(why) => return Some(why),
            None => {}
        }
        self.cores = self.cores.saturating_add(1);
        None
    }

    /// Checks an `e` line. Returns why the line is at fault, or `None`.
    fn fresh(&mut self, var: Var) -> Result<Option<HintWhy>, AllocError>
        requires { IsReadyChecker self.old }
        ensures takes { IfOk result (λ why. UncountedLineResult why self.old self.new (Fresh var)) }
        ensures on_error { OnErr result (FollowsAccepted self.old (Fresh var)) }
    {
        if self.active.is_used(var) {
            return Ok(Some(HintWhy::VarInUse));
        }
        self.active.forget_units(var, self.least_id)?;
        Ok(None)
    }

    /// Checks the next line, without counting it. Returns why the line is at fault, or `None`.
    fn check_uncounted(&mut self, line: &HintLine<'_>) -> Result<Option<HintWhy>, AllocError>
        requires ready { IsReadyChecker self.old }
        requires within { LineIsWithinLimits (line_of_view line.now) }
        ensures takes { IfOk result (λ why. UncountedLineResult why self.old self.new (line_of_view line.now)) }
        ensures on_error { OnErr result (FollowsAccepted self.old (line_of_view line.now)) }
    {
        match line {
            HintLine::Input { id, clause } => self.input(*id, clause),
            HintLine::Derived { id, clause, ids } => self.derived(*id, clause, ids),
            HintLine::Removed { id } => self.removed(*id),
            HintLine::Core { core, ids } => Ok(self.core(core, ids)),
            HintLine::Fresh { var } => self.fresh(*var),
        }
    }

    /// Checks the next line. Returns why the line is at fault, or `None`. Runs out of memory only if the line is not at
    /// fault.
    pub(crate) fn take(&mut self, line: &HintLine<'_>) -> Result<Option<HintWhy>, AllocError>
        requires ready { IsReadyChecker self.old }
        requires within { LineIsWithinLimits (line_of_view line.now) }
        ensures ready { IfOk result (λ why. why ≡ None → IsReadyChecker self.new) }
        ensures takes { IfOk result (λ why. LineResult why self.old self.new (line_of_view line.now)) }
        ensures on_error { OnErr result (FollowsAccepted self.old (line_of_view line.now)) }
    {
        let why = self.check_uncounted(line)?;
        if why.is_none() {
            self.lines = self.lines.saturating_add(1);
        }
        Ok(why)
    }

    /// Returns the verdict on a text that consists of the lines so far.
    pub(crate) fn proved(&self) -> HintVerdict
        ensures { result ≡ HintVerdict.Proved self.now.empty self.now.cores self.now.lines }
    {
        HintVerdict::Proved {
            empty: self.empty,
            cores: self.cores,
            lines: self.lines,
        }
    }

    /// Returns the verdict on a text whose next line is at fault because of `why`.
    pub(crate) fn bad(&self, why: HintWhy) -> HintVerdict
        ensures { (count : ℕ) → self.now.lines ≡ capped count → result ≡ HintVerdict.Bad (capped (count + 1)) why }
    {
        HintVerdict::Bad {
            line: self.lines.saturating_add(1),
            why,
        }
    }
}
