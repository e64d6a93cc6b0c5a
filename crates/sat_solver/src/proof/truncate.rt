//! Shortens hashes to their top bits.
ghost use Rattle.std.specs.Prelude.{ℕ, ◌≡◌, ◌+◌, ◌-◌, ◌≤◌, ◌++◌, length, map, OnOk, [], false, vec_len, vec_capacity};
ghost use Rattle.sat_base.specs.steps.StepViews.{step_of};
ghost use Rattle.sat_solver.specs.proof.Widths.{kept_bits, narrowed};

use sat_base::{ClauseHash, HashBits, Lit, ProofStep};
use std::alloc::{AllocError, Global};

/// Returns the top `bits` bits of a hash.
fn top_bits(hash: ClauseHash, bits: HashBits) -> ClauseHash
    ensures { result ≡ kept_bits bits hash }
{
    let width = bits.get();
    if width == 0 { 0 } else { hash >> (64 - width) }
}

/// Replaces the contents of `narrowed` with the top `bits` bits of every hash in `hashes`.
pub fn narrow(
    narrowed: &mut Vec<ClauseHash>,
    hashes: &[ClauseHash],
    bits: HashBits,
) -> Result<(), AllocError>
    ensures { OnOk result (narrowed.new.items ≡ map (kept_bits bits) hashes.now) }
{
    narrowed.clear();
    narrowed.reserve(hashes.len())?;
    let width = bits.get();
    if width == 0 {
        push_zeros(narrowed, hashes);
        return Ok(());
    }
    push_shifted(narrowed, hashes, 64 - width);
    Ok(())
}

/// Returns the top 0 bits of a hash, which are 0.
#[inline(always)]
fn no_bits(_hash: ClauseHash) -> ClauseHash
    ensures { result ≡ kept_bits 0 _hash }
{
    0
}

#[tactic(auto, using(crate::proofs::lemmas::session::CuttingLemmas::narrow_next))]
/// Appends a 0 for every hash in `hashes`. Capacity for them must have been reserved.
fn push_zeros(narrowed: &mut Vec<ClauseHash>, hashes: &[ClauseHash])
    requires { vec_len narrowed.old + length hashes.now ≤ vec_capacity narrowed.old }
    ensures { narrowed.new.items ≡ narrowed.old.items ++ map (kept_bits 0) hashes.now }
{
    for hash in hashes {
        narrowed.push_reserved(no_bits(*hash));
    }
}

/// Returns a hash without its lowest `shift` bits.
#[inline(always)]
fn without_low_bits(hash: ClauseHash, shift: u32) -> ClauseHash
    requires { shift ≤ 63 }
    ensures { result ≡ kept_bits (64 - shift) hash }
{
    hash >> shift
}

#[tactic(auto, using(crate::proofs::lemmas::session::CuttingLemmas::narrow_next))]
/// Appends the hashes in `hashes` without their lowest `shift` bits. Capacity for them must have been reserved.
fn push_shifted(narrowed: &mut Vec<ClauseHash>, hashes: &[ClauseHash], shift: u32)
    requires shift { shift ≤ 63 }
    requires room { vec_len narrowed.old + length hashes.now ≤ vec_capacity narrowed.old }
    ensures { narrowed.new.items ≡ narrowed.old.items ++ map (kept_bits (64 - shift)) hashes.now }
{
    for hash in hashes {
        narrowed.push_reserved(without_low_bits(*hash, shift));
    }
}

/// Replaces the contents of `narrowed` with `units`, keeping only the top `bits` bits of every hash.
pub fn narrow_units(
    narrowed: &mut Vec<(Lit, ClauseHash)>,
    units: &[(Lit, ClauseHash)],
    bits: HashBits,
) -> Result<(), AllocError>
    ensures { OnOk result (narrowed.new.items ≡ map (λ u. (u.0, kept_bits bits u.1)) units.now) }
{
    narrowed.clear();
    for unit in units {
        narrowed.push((unit.0, top_bits(unit.1, bits)))?;
    }
    Ok(())
}

/// Returns `true` if a step has hashes.
#[inline(always)]
pub fn has_hashes(step: &ProofStep<'_>) -> bool
    ensures { result ≡ false → (bits : ℕ) → step_of step.now ≡ narrowed bits (step_of step.now) }
{
    match step {
        ProofStep::AtClause { .. } => true,
        ProofStep::UnitClauses { .. } => true,
        ProofStep::FailedAssumptions { .. } => true,
        ProofStep::SolverVarName { .. } => false,
        ProofStep::UserVarName { .. } => false,
        ProofStep::DeleteVar { .. } => false,
        ProofStep::ChangeSamplingMode { .. } => false,
        ProofStep::AddClause { .. } => false,
        ProofStep::DeleteClause { .. } => false,
        ProofStep::ChangeHashBits { .. } => false,
        ProofStep::Model { .. } => false,
        ProofStep::Assumptions { .. } => false,
        ProofStep::End => false,
    }
}

/// Lists for the shortened hashes of a step.
#[derive(Drop)]
pub struct CutLists {
    pub hashes: Vec<ClauseHash>,
    pub units: Vec<(Lit, ClauseHash)>,
}

impl CutLists {
    /// Creates empty lists. Never allocates.
    pub fn new(alloc: Global) -> CutLists
        ensures hashes { result.hashes.items ≡ [] }
        ensures units { result.units.items ≡ [] }
    {
        CutLists {
            hashes: Vec::new(alloc),
            units: Vec::new(alloc),
        }
    }
}
