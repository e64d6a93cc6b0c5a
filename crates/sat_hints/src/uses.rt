//! Counts of the variables that are in clauses of two or more literals.
ghost use Rattle.std.specs.Prelude.{◌≡◌, ◌+◌, ◌*◌, ◌≤◌, ◌<◌, ◌^◌, ℕ, length, OnOk, MatchBool, true, false};
ghost use Rattle.sat_checker.specs.LiteralSets.{mentions};
ghost use Rattle.sat_checker.specs.SortedSets.{IsIncreasing};
ghost use Rattle.sat_checker.specs.inner.OccurrenceView.{count_at};
ghost use Rattle.sat_hints.specs.inner.Clauses.{occurrences_of, count_in_long, PresentInvariant};
ghost use Rattle.sat_hints.specs.inner.UsesView.{count_if_counting, uses_at};

use crate::present::Present;
use sat_base::{Lit, Var};
use sat_checker::store::occurrences::Occurrences;
use std::alloc::{AllocError, Global};

/// How many times each literal occurs in the present clauses of two or more literals. Counting starts when a variable
/// first becomes new, so a text in which no variable becomes new incurs no cost.
#[derive(Drop)]
pub(crate) struct Uses {
    counting: bool,
    counts: Occurrences,
}

/// Returns `true` if the variable is in the clause.
fn mentions(clause: &[Lit], var: Var) -> bool
    ensures { result ≡ mentions clause.now var }
{
    for lit in clause {
        if lit.var() == var {
            return true;
        }
    }
    false
}

/// Returns `true` if the clause has two or more literals, and contains the variable.
fn is_long_with(clause: &[Lit], var: Var) -> bool
    ensures { MatchBool result (0 < count_in_long (2 * var) clause.now + count_in_long (2 * var + 1) clause.now)
        (count_in_long (2 * var) clause.now + count_in_long (2 * var + 1) clause.now ≡ 0) }
{
    if clause.len() < 2 {
        return false;
    }
    mentions(clause, var)
}

/// Returns `true` if a present clause of two or more literals contains the variable.
fn is_in_long(present: &Present, var: Var) -> bool
    requires { PresentInvariant present.now }
    ensures { MatchBool result (0 < occurrences_of present.now (2 * var) + occurrences_of present.now (2 * var + 1))
        (occurrences_of present.now (2 * var) + occurrences_of present.now (2 * var + 1) ≡ 0) }
{
    for place in 0..present.len() {
        if present.is_removed(place) {
            continue;
        }
        if is_long_with(present.clause(place), var) {
            return true;
        }
    }
    false
}

/// Counts the literals of a clause, if it has two or more literals.
fn count(counts: &mut Occurrences, clause: &[Lit]) -> Result<(), AllocError>
    requires increasing { IsIncreasing clause.now }
    requires few { (l : ℕ) → count_at counts.old l + count_in_long l clause.now < 2 ^ 32 }
    ensures { OnOk result ((l : ℕ) → count_at counts.new l ≡ count_at counts.old l + count_in_long l clause.now) }
{
    if clause.len() < 2 {
        return Ok(());
    }
    counts.make_room(clause)?;
    counts.add(clause);
    Ok(())
}

/// Returns an error if there are more clauses, including removed ones, than a count of 32 bits can reach.
fn check_countable(present: &Present) -> Result<(), AllocError>
    ensures { OnOk result (length present.now.ids.items < 2 ^ 32) }
{
    if present.len() > u32::MAX as usize {
        return Err(AllocError);
    }
    Ok(())
}

/// Counts the literals of all present clauses of two or more literals.
fn count_all(counts: &mut Occurrences, present: &Present) -> Result<(), AllocError>
    requires store { PresentInvariant present.now }
    requires none { (l : ℕ) → count_at counts.old l ≡ 0 }
    ensures { OnOk result ((l : ℕ) → count_at counts.new l ≡ occurrences_of present.now l) }
{
    check_countable(present)?;
    for place in 0..present.len() {
        if present.is_removed(place) {
            continue;
        }
        count(counts, present.clause(place))?;
    }
    Ok(())
}

impl Uses {
    /// Returns an empty table of counts. Never allocates.
    pub(crate) fn new(alloc: Global) -> Uses
        ensures none { (l : ℕ) → uses_at result l ≡ 0 }
        ensures not { result.counting ≡ false }
    {
        Uses {
            counting: false,
            counts: Occurrences::new(alloc),
        }
    }

    /// If counting has started, counts the literals of a clause that was just added to `present`. The clause is given
    /// as a sorted set.
    pub(crate) fn add(&mut self, present: &Present, clause: &[Lit]) -> Result<(), AllocError>
        requires increasing { IsIncreasing clause.now }
        requires few { (l : ℕ) → uses_at self.old l + count_in_long l clause.now ≤ length present.now.ids.items }
        ensures counting { OnOk result (self.new.counting ≡ self.old.counting) }
        ensures counted { OnOk result ((l : ℕ)
            → uses_at self.new l ≡ uses_at self.old l + count_if_counting self.old.counting (count_in_long l clause.now)) }
    {
        if !self.counting {
            return Ok(());
        }
        check_countable(present)?;
        count(&mut self.counts, clause)
    }

    /// If counting has started, subtracts the literals of a clause that is being removed.
    pub(crate) fn subtract(&mut self, clause: &[Lit])
        requires { (l : ℕ) → count_if_counting self.old.counting (count_in_long l clause.now) ≤ uses_at self.old l }
        ensures counting { self.new.counting ≡ self.old.counting }
        ensures counted { (l : ℕ) → uses_at self.new l + count_if_counting self.old.counting (count_in_long l clause.now)
            ≡ uses_at self.old l }
    {
        if !self.counting || clause.len() < 2 {
            return;
        }
        self.counts.subtract(clause);
    }

    /// Starts counting, unless counting has already started: counts the literals of all present clauses.
    pub(crate) fn begin(&mut self, present: &Present) -> Result<(), AllocError>
        requires store { PresentInvariant present.now }
        requires counted { (l : ℕ) → uses_at self.old l ≡ count_if_counting self.old.counting (occurrences_of present.now l) }
        ensures counting { OnOk result (self.new.counting ≡ true) }
        ensures counted { OnOk result ((l : ℕ) → uses_at self.new l ≡ occurrences_of present.now l) }
    {
        if self.counting {
            return Ok(());
        }
        count_all(&mut self.counts, present)?;
        self.counting = true;
        Ok(())
    }

    /// Returns `true` if a present clause of two or more literals contains the variable. If counting has not started,
    /// searches all clauses.
    pub(crate) fn has(&self, present: &Present, var: Var) -> bool
        requires store { PresentInvariant present.now }
        requires counted { (l : ℕ) → uses_at self.now l ≡ count_if_counting self.now.counting (occurrences_of present.now l) }
        ensures { MatchBool result (0 < occurrences_of present.now (2 * var) + occurrences_of present.now (2 * var + 1))
            (occurrences_of present.now (2 * var) + occurrences_of present.now (2 * var + 1) ≡ 0) }
    {
        if !self.counting {
            return is_in_long(present, var);
        }
        self.counts.has(var)
    }
}
