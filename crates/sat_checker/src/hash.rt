//! The hashes by which steps name stored clauses.
ghost use Rattle.std.specs.Prelude.{ℕ, ◌≡◌, ◌/◌, ◌-◌, ◌^◌, ◌==◌, None, OnOk, if◌then◌else◌};
ghost use Rattle.sat_checker.specs.Stored.{solver_literal, clause_hash_by};
ghost use Rattle.sat_checker.specs.HasherView.{solver_name_of, width_of};
ghost use Rattle.sat_checker.specs.inner.PairView.{mixed};

use sat_base::{ClauseHash, HashBits, Lit, MaybeVar, Table, Var, lit_hash};
use std::alloc::{AllocError, Global};

/// A hasher of clauses, which uses the solver's names for variables and keeps the top bits of every hash.
#[derive(Drop)]
pub struct ClauseHasher {
    bits: HashBits,
    solver_names: Table<MaybeVar>,
}

impl ClauseHasher {
    /// Creates a hasher that has no solver names, and keeps `bits` bits of every hash.
    pub fn new(alloc: Global, bits: HashBits) -> ClauseHasher
        ensures width { width_of result ≡ bits }
        ensures names { (v : ℕ) → solver_name_of result v ≡ None }
    {
        ClauseHasher {
            bits,
            solver_names: Table::new(alloc),
        }
    }

    /// Returns how many bits of every hash are kept.
    pub(crate) fn bits(&self) -> HashBits
        ensures { result ≡ width_of self.now }
    {
        self.bits
    }

    /// Sets how many bits of every hash are kept from now on.
    pub fn set_bits(&mut self, bits: HashBits)
        ensures width { width_of self.new ≡ bits }
        ensures names { (v : ℕ) → solver_name_of self.new v ≡ solver_name_of self.old v }
    {
        self.bits = bits;
    }

    /// Sets the solver name of a variable, or removes it if `name` is `None`.
    pub fn set_solver_name(&mut self, var: Var, name: Option<Var>) -> Result<(), AllocError>
        ensures width { width_of self.new ≡ width_of self.old }
        ensures names { OnOk result ((v : ℕ) → solver_name_of self.new v
            ≡ (if v == var then name else solver_name_of self.old v)) }
    {
        let packed = MaybeVar::new(name);
        self.solver_names.set(var.index(), packed, MaybeVar::none())
    }

    /// Returns the solver name of a variable, if it has one.
    pub(crate) fn solver_name(&self, var: Var) -> Option<Var>
        ensures { result ≡ solver_name_of self.now var }
    {
        self.solver_names.get(var.index(), MaybeVar::none()).get()
    }

    /// Returns the literal with its variable replaced by the variable's solver name, or the literal itself if there is
    /// no such name.
    #[inline(always)]
    #[tactic(auto, using(crate::proofs::lemmas::sets::Hashing::named_literal))]
    fn solver_lit(&self, lit: Lit) -> Lit
        ensures { result ≡ solver_literal (solver_name_of self.now) lit }
    {
        match self.solver_name(lit.var()) {
            Some(var) => var.lit(lit.is_positive()),
            None => lit,
        }
    }

    /// Returns the hash of a clause over the solver's names, at the current width.
    #[tactic(auto, using(crate::proofs::lemmas::sets::Hashing::hash_next))]
    pub fn clause_hash(&self, lits: &[Lit]) -> ClauseHash
        ensures { result ≡ clause_hash_by (solver_name_of self.now) (width_of self.now) lits.now }
    {
        let mut hash = 0;
        for lit in lits {
            hash ^= lit_hash(self.solver_lit(*lit));
        }
        top_bits(hash, self.bits)
    }
}

/// An odd factor. Multiplication by an odd factor keeps different hashes different.
const MIXER: u64 = 0xbf58_476d_1ce4_e5b9;

/// Returns the mixed hash under which the index files `hash`. The top bits of a mixed hash depend on all bits of
/// `hash`. Without mixing, hashes of neighbouring literals share many top bits.
#[inline(always)]
#[tactic(auto, using(crate::proofs::lemmas::pairs::Mixing::is_mixed))]
pub(crate) fn mixed(hash: ClauseHash) -> ClauseHash
    ensures { result ≡ mixed hash }
{
    hash.wrapping_mul(MIXER)
}

/// Returns the top `bits` bits of a hash.
fn top_bits(hash: ClauseHash, bits: HashBits) -> ClauseHash
    ensures { result ≡ hash / 2 ^ (64 - bits) }
{
    let width = bits.get();
    if width == 0 { 0 } else { hash >> (64 - width) }
}
