//! Scratch lists that several parts of a solver share.
ghost use Rattle.std.specs.Prelude.{◌≡◌, ◌≤◌, [], OnOk, OnErr};
ghost use Rattle.sat_store.specs.variables.Flags.{flags_for, GrowsFlags};
ghost use Rattle.sat_base.specs.values.Literals.{var_limit};

use sat_base::Lit;
use std::alloc::{AllocError, Global};

/// Two scratch lists of literals. The contents have no meaning between calls.
#[derive(Drop)]
pub struct TmpData {
    pub lits: Vec<Lit>,
    pub lits_2: Vec<Lit>,
}

impl TmpData {
    /// Returns two empty lists. Never allocates.
    pub fn new(alloc: Global) -> TmpData
        ensures first { result.lits.items ≡ [] }
        ensures second { result.lits_2.items ≡ [] }
    {
        TmpData {
            lits: Vec::new(alloc),
            lits_2: Vec::new(alloc),
        }
    }
}

/// A flag for every literal. Code that sets a flag must clear it again, so that all flags are false between calls to
/// the solver.
#[derive(Drop)]
pub struct TmpFlags {
    pub flags: Vec<bool>,
}

impl TmpFlags {
    /// Returns an empty list of flags. Never allocates.
    pub fn new(alloc: Global) -> TmpFlags
        ensures { result.flags.items ≡ [] }
    {
        TmpFlags {
            flags: Vec::new(alloc),
        }
    }

    /// Resizes the list to two flags for each of `count` variables. New flags are false.
    pub fn set_var_count(&mut self, count: usize) -> Result<(), AllocError>
        requires { count ≤ var_limit }
        ensures flags { OnOk result (self.new.flags.items ≡ flags_for count self.old.flags.items) }
        ensures grows { OnOk result (GrowsFlags count self.old.flags.items self.new.flags.items) }
        ensures kept { OnErr result (self.new.flags.items ≡ self.old.flags.items) }
    {
        self.resize_flags(count)
    }

    /// Resizes the list. The contract of `set_var_count` is proved from this contract.
    fn resize_flags(&mut self, count: usize) -> Result<(), AllocError>
        requires { count ≤ var_limit }
        ensures flags { OnOk result (self.new.flags.items ≡ flags_for count self.old.flags.items) }
        ensures kept { OnErr result (self.new.flags.items ≡ self.old.flags.items) }
    {
        self.flags.resize(2 * count, false)
    }
}
