//! The width of the hashes in a proof, which depends on the number of clauses.
ghost use Rattle.std.specs.Prelude.{◌≡◌, ◌≤◌, ◌/◌, ◌^◌, ◌&&◌, not};
ghost use Rattle.sat_base.specs.steps.StepViews.{step_of};
ghost use Rattle.sat_solver.specs.proof.Counting.{nothing_counted, with_clause_counted, with_clause_uncounted};
ghost use Rattle.sat_solver.specs.proof.Counting.{count_after, too_short};
ghost use Rattle.sat_solver.specs.proof.Counting.{too_long};
ghost use Rattle.sat_solver.specs.proof.Counting.{widened_bits, narrowed_bits, fitting_bits, counting_after};

use sat_base::{HashBits, Lit, ProofStep};

/// The number of changes by two bits that suffice to change any width to any other.
const TURNS: u32 = 32;

/// The width of hashes, and what determines it.
#[derive(Clone, Copy, Debug, Drop)]
pub struct Counting {
    /// The number of present clauses that have two or more literals.
    pub clauses: u64,
    /// The width.
    pub bits: HashBits,
    /// Whether the first ask has begun. The width is reduced only after that.
    pub solving: bool,
}

/// Returns the width `bits`, which must be at most 64.
fn of_bits(bits: u32) -> HashBits
    requires { bits ≤ 64 }
    ensures { result ≡ bits }
{
    match HashBits::new(bits) {
        Some(bits) => bits,
        None => unreachable!(),
    }
}

/// Returns the number of clauses after `clause` is added. Only clauses of two or more literals are counted.
fn with_clause(clauses: u64, clause: &[Lit]) -> u64
    ensures { result ≡ with_clause_counted clause.now clauses }
{
    if clause.len() < 2 {
        return clauses;
    }
    clauses.saturating_add(1)
}

/// Returns the number of clauses after `clause` is deleted. Only clauses of two or more literals are counted.
fn without_clause(clauses: u64, clause: &[Lit]) -> u64
    ensures { result ≡ with_clause_uncounted clause.now clauses }
{
    if clause.len() < 2 {
        return clauses;
    }
    clauses.saturating_sub(1)
}

/// Returns the number of clauses after `step`. Only clauses of two or more literals are counted.
#[inline(always)]
fn count(clauses: u64, step: &ProofStep<'_>) -> u64
    ensures { result ≡ count_after (step_of step.now) clauses }
{
    match step {
        ProofStep::AddClause { clause } => with_clause(clauses, clause),
        ProofStep::AtClause { clause, .. } => with_clause(clauses, clause),
        ProofStep::DeleteClause { clause, .. } => without_clause(clauses, clause),
        ProofStep::SolverVarName { .. } => clauses,
        ProofStep::UserVarName { .. } => clauses,
        ProofStep::DeleteVar { .. } => clauses,
        ProofStep::ChangeSamplingMode { .. } => clauses,
        ProofStep::UnitClauses { .. } => clauses,
        ProofStep::ChangeHashBits { .. } => clauses,
        ProofStep::Model { .. } => clauses,
        ProofStep::Assumptions { .. } => clauses,
        ProofStep::FailedAssumptions { .. } => clauses,
        ProofStep::End => clauses,
    }
}

/// Returns 2^(bits/2), rounding the exponent down. For an even width, this is the square root of the number of hashes.
fn sqrt_hash_count(bits: u32) -> u64
    requires { bits ≤ 64 }
    ensures { result ≡ 2 ^ (bits / 2) }
{
    1 << (bits / 2)
}

/// Returns `true` if the width `bits` is too short for `clauses` clauses.
fn is_short(clauses: u64, bits: u32) -> bool
    requires { bits ≤ 64 }
    ensures { result ≡ too_short clauses bits }
{
    bits < 64 && sqrt_hash_count(bits) < clauses
}

/// Returns `true` if the width `bits` is longer than `clauses` clauses need.
fn is_long(clauses: u64, bits: u32) -> bool
    requires { bits ≤ 64 }
    ensures { result ≡ too_long clauses bits }
{
    6 < bits && clauses.saturating_mul(4) < sqrt_hash_count(bits)
}

/// Adds two bits to the width `from` as long as it is too short for `clauses` clauses, and returns the result. The
/// width never exceeds 64.
fn widen(clauses: u64, from: u32) -> u32
    requires { from ≤ 64 }
    ensures value { result ≡ widened_bits 32 clauses from }
    ensures bound { result ≤ 64 }
{
    let mut bits = from;
    for _ in 0..TURNS {
        if !is_short(clauses, bits) {
            return bits;
        }
        bits = (bits + 2).min(64);
    }
    bits
}

/// Returns the width `from`, reduced by two bits at a time while it is greater than `clauses` clauses need.
fn shorten(clauses: u64, from: u32) -> u32
    requires { from ≤ 64 }
    ensures value { result ≡ narrowed_bits 32 clauses from }
    ensures bound { result ≤ 64 }
{
    let mut bits = from;
    for _ in 0..TURNS {
        if !is_long(clauses, bits) {
            return bits;
        }
        bits = bits.saturating_sub(2);
    }
    bits
}

/// Returns `true` if the width `bits` is kept for `clauses` clauses, which is the usual case.
fn fits(solving: bool, clauses: u64, bits: u32) -> bool
    requires { bits ≤ 64 }
    ensures { result ≡ (not (too_short clauses bits) && not (solving && too_long clauses bits)) }
{
    !is_short(clauses, bits) && !(solving && is_long(clauses, bits))
}

/// Returns the width for `clauses` clauses, given the previous width `from`. The width is reduced only if `solving`
/// is true.
#[inline(always)]
fn fit(solving: bool, clauses: u64, from: HashBits) -> HashBits
    ensures { result ≡ fitting_bits solving clauses from }
{
    if fits(solving, clauses, from.get()) {
        return from;
    }
    let wide = widen(clauses, from.get());
    if solving {
        return of_bits(shorten(clauses, wide));
    }
    of_bits(wide)
}

impl Counting {
    /// Creates counts of no clauses, with hashes of full width.
    pub fn new() -> Counting
        ensures { result ≡ nothing_counted }
    {
        Counting {
            clauses: 0,
            bits: of_bits(64),
            solving: false,
        }
    }

    /// Returns the counts after `step`, with the width at which the step is written.
    #[inline(always)]
    pub fn with(&self, step: &ProofStep<'_>) -> Counting
        ensures { result ≡ counting_after (step_of step.now) self.now }
    {
        let clauses = count(self.clauses, step);
        Counting {
            clauses,
            bits: fit(self.solving, clauses, self.bits),
            solving: self.solving,
        }
    }
}
