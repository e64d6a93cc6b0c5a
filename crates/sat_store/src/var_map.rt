//! Maps between variables.
ghost use Rattle.std.specs.Prelude.{ℕ, ◌≡◌, ◌==◌, if◌then◌else◌, IfNone, IfSome, true, false, ◌+◌, ◌<◌, ◌≤◌, Option};
ghost use Rattle.std.specs.Prelude.{Some, None, List, [], length, max, OnOk, OnErr, vec_capacity};
ghost use Rattle.sat_store.specs.variables.Maps.{target, SetsTarget, GrowsMap, GrowsBothMaps, AreInverse, Links};
ghost use Rattle.sat_store.specs.variables.Maps.{Unlinks};
ghost use Rattle.sat_store.specs.variables.Codes.{targets_of, AreTargetCodes};

use sat_base::Var;
use std::alloc::{AllocError, Global};
use std::marker::Model;

/// A map from variables to variables. Contracts see the list of targets, indexed by variable.
#[derive(Debug, Drop)]
pub struct VarMap {
    /// For every variable, one more than the index of its target, or 0 if the variable has no target.
    codes: Vec<u32>,
}

impl Model for VarMap {
    ghost use Rattle.std.specs.Prelude.{ℕ, List, Option};
    ghost use Rattle.sat_store.specs.variables.Codes.{targets_of, AreTargetCodes};

    ghost Value = { List (Option ℕ) };

    ghost view = { λ m. targets_of m.codes.items };

    ghost invariant = { λ m. AreTargetCodes m.codes.items };
}

impl VarMap {
    /// Returns an empty map. Never allocates.
    pub fn new(alloc: Global) -> VarMap
        ensures { result ≡ [] }
    {
        VarMap {
            codes: Vec::new(alloc),
        }
    }

    /// Returns the target of a variable, or `None` if the variable is not mapped.
    pub fn get(&self, from: Var) -> Option<Var>
        ensures { result ≡ target self.now from }
    {
        target_at(&self.codes, from)
    }

    /// Maps `from` to `into`. `from` must not be mapped.
    #[inline(always)]
    pub fn insert(&mut self, into: Var, from: Var) -> Result<(), AllocError>
        requires { target self.old from ≡ None }
        ensures put { OnOk result (SetsTarget self.old self.new from (Some into)) }
        ensures watermark { OnOk result (length self.new ≡ max (length self.old) (from + 1)) }
        ensures grows { OnOk result (GrowsMap self.old self.new from into) }
        ensures kept { OnErr result (self.new ≡ self.old) }
    {
        self.put_target(into, from)
    }

    /// Maps `from` to `into`. The contract of `insert` is proved from this contract.
    #[inline(always)]
    fn put_target(&mut self, into: Var, from: Var) -> Result<(), AllocError>
        ensures put { OnOk result (SetsTarget self.old self.new from (Some into)) }
        ensures watermark { OnOk result (length self.new ≡ max (length self.old) (from + 1)) }
        ensures kept { OnErr result (self.new ≡ self.old) }
    {
        make_room(&mut self.codes, from)?;
        put(&mut self.codes, from, into);
        Ok(())
    }

    /// Removes the target of a variable, if it has one.
    pub fn remove(&mut self, from: Var)
        ensures put { SetsTarget self.old self.new from None }
        ensures watermark { length self.new ≡ length self.old }
    {
        forget(&mut self.codes, from);
    }

    /// Removes the target of a variable, and lowers the watermark to `watermark`.
    fn cut(&mut self, from: Var, watermark: usize)
        requires { watermark ≤ length self.old }
        ensures put { (v : ℕ) → v < watermark → target self.new v ≡ (if v == from then None else target self.old v) }
        ensures watermark { length self.new ≡ watermark }
    {
        self.codes.truncate(watermark);
        self.remove(from);
    }

    /// Returns one more than the largest index that has ever been mapped, or 0 if none has.
    pub fn watermark(&self) -> usize
        ensures { result ≡ length self.now }
    {
        self.codes.len()
    }
}

/// Returns the target of a variable according to `codes`.
fn target_at(codes: &[u32], from: Var) -> Option<Var>
    requires { AreTargetCodes codes.now }
    ensures { result ≡ target (targets_of codes.now) from }
{
    let code = *codes.get(from.index())?;
    if code == 0 {
        return None;
    }
    Some(Var::from_index((code - 1) as usize))
}

/// Removes the target of a variable from `codes`.
fn forget(codes: &mut [u32], from: Var)
    ensures put { SetsTarget (targets_of codes.old) (targets_of codes.new) from None }
    ensures codes { AreTargetCodes codes.old → AreTargetCodes codes.new }
{
    let index = from.index();
    if index < codes.len() {
        codes[index] = 0;
    }
}

/// Reserves capacity in `codes` for the code of a variable.
#[inline(always)]
fn make_room(codes: &mut Vec<u32>, from: Var) -> Result<(), AllocError>
    ensures kept { codes.new.items ≡ codes.old.items }
    ensures room { OnOk result (from < vec_capacity codes.new) }
{
    let index = from.index();
    if index < codes.len() {
        return Ok(());
    }
    codes.reserve(index + 1 - codes.len())
}

/// Sets the target of a variable in `codes`. Capacity for its code must have been reserved.
#[inline(always)]
fn put(codes: &mut Vec<u32>, from: Var, into: Var)
    requires { from < vec_capacity codes.old }
    ensures put { SetsTarget (targets_of codes.old.items) (targets_of codes.new.items) from (Some into) }
    ensures watermark { length codes.new.items ≡ max (length codes.old.items) (from + 1) }
    ensures codes { AreTargetCodes codes.old.items → AreTargetCodes codes.new.items }
{
    let index = from.index();
    for _new in codes.len()..index + 1 {
        codes.push_reserved(0);
    }
    codes[index] = into.index() as u32 + 1;
}

/// A map from variables to variables, with its inverse.
#[derive(Debug, Drop)]
pub struct VarBiMap {
    fwd: VarMap,
    bwd: VarMap,
}

impl Model for VarBiMap {
    ghost use Rattle.sat_store.specs.variables.Maps.{MapAndInverse, AreInverse};

    ghost Value = { MapAndInverse };

    ghost view = { λ m. record { fwd = m.fwd; bwd = m.bwd } };

    ghost invariant = { λ m. AreInverse (record { fwd = m.fwd; bwd = m.bwd }) };
}

impl VarBiMap {
    /// Returns an empty map. Never allocates.
    pub fn new(alloc: Global) -> VarBiMap
        ensures fwd { result.fwd ≡ [] }
        ensures bwd { result.bwd ≡ [] }
    {
        VarBiMap {
            fwd: VarMap::new(alloc),
            bwd: VarMap::new(alloc),
        }
    }

    /// Returns a reference to the map.
    pub fn fwd(&self) -> &VarMap
        ensures map { result.now ≡ self.now.fwd }
        ensures inverse { AreInverse self.now }
    {
        &self.fwd
    }

    /// Returns a reference to the inverse map.
    pub fn bwd(&self) -> &VarMap
        ensures map { result.now ≡ self.now.bwd }
        ensures inverse { AreInverse self.now }
    {
        &self.bwd
    }

    /// Returns a mutable view of the map. Changes to the map also change the inverse.
    pub fn fwd_mut(&mut self) -> VarBiMapMut<'_>
        ensures same { result.map.ghost_name ≡ self.entry.ghost_name }
        ensures map { result.map.now ≡ self.old }
        ensures side { result.is_turned ≡ false }
    {
        VarBiMapMut {
            map: self,
            is_turned: false,
        }
    }

    /// Returns a mutable view of the inverse. Changes to the inverse also change the map.
    pub fn bwd_mut(&mut self) -> VarBiMapMut<'_>
        ensures same { result.map.ghost_name ≡ self.entry.ghost_name }
        ensures map { result.map.now ≡ self.old }
        ensures side { result.is_turned ≡ true }
    {
        VarBiMapMut {
            map: self,
            is_turned: true,
        }
    }

    /// Maps `from` to `into` in the map, and `into` to `from` in the inverse.
    fn link(&mut self, from: Var, into: Var) -> Result<(), AllocError>
        requires from_unmapped { target self.old.fwd from ≡ None }
        requires into_unmapped { target self.old.bwd into ≡ None }
        ensures linked { OnOk result (Links self.old self.new from into) }
        ensures kept { OnErr result (self.new ≡ self.old) }
    {
        let watermark = self.fwd.watermark();
        self.fwd.insert(into, from)?;
        if let Err(refused) = self.bwd.insert(from, into) {
            self.fwd.cut(from, watermark);
            return Err(refused);
        }
        Ok(())
    }

    /// Removes the target `into` of `from` from the map, and the target `from` of `into` from the inverse.
    fn unlink(&mut self, from: Var, into: Var)
        requires { target self.old.fwd from ≡ Some into }
        ensures { Unlinks self.old self.new from into }
    {
        self.fwd.remove(from);
        self.bwd.remove(into);
    }
}

/// A mutable view of one of the two maps in a `VarBiMap`. Changes to this map also change the other map.
#[derive(Drop)]
pub struct VarBiMapMut<'a> {
    /// The pair of maps.
    pub map: &'a mut VarBiMap,
    /// Whether the view is of the inverse.
    pub is_turned: bool,
}

impl<'a> VarBiMapMut<'a> {
    ghost use Rattle.sat_store.specs.variables.MapViews.{maps_of_view};

    /// Maps `from` to `into` in this map, and `into` to `from` in the other map. `from` must not be mapped in this map,
    /// nor `into` in the other.
    pub fn insert(&mut self, into: Var, from: Var) -> Result<(), AllocError>
        requires from_unmapped { target (maps_of_view self.old).fwd from ≡ None }
        requires into_unmapped { target (maps_of_view self.old).bwd into ≡ None }
        ensures same { self.new.map.ghost_name ≡ self.old.map.ghost_name }
        ensures side { self.new.is_turned ≡ self.old.is_turned }
        ensures linked { OnOk result (Links (maps_of_view self.old) (maps_of_view self.new) from into) }
        ensures grows { OnOk result (GrowsBothMaps (maps_of_view self.old) (maps_of_view self.new) from into) }
        ensures kept { OnErr result (self.new.map.now ≡ self.old.map.now) }
    {
        self.link(into, from)
    }

    /// Maps `from` to `into`. The contract of `insert` is proved from this contract.
    fn link(&mut self, into: Var, from: Var) -> Result<(), AllocError>
        requires from_unmapped { target (maps_of_view self.old).fwd from ≡ None }
        requires into_unmapped { target (maps_of_view self.old).bwd into ≡ None }
        ensures same { self.new.map.ghost_name ≡ self.old.map.ghost_name }
        ensures side { self.new.is_turned ≡ self.old.is_turned }
        ensures linked { OnOk result (Links (maps_of_view self.old) (maps_of_view self.new) from into) }
        ensures kept { OnErr result (self.new.map.now ≡ self.old.map.now) }
    {
        if self.is_turned {
            return self.map.link(into, from);
        }
        self.map.link(from, into)
    }

    /// Removes the target of a variable and returns it, or returns `None` if the variable is not mapped.
    pub fn remove(&mut self, from: Var) -> Option<Var>
        ensures same { self.new.map.ghost_name ≡ self.old.map.ghost_name }
        ensures side { self.new.is_turned ≡ self.old.is_turned }
        ensures answer { result ≡ target (maps_of_view self.old).fwd from }
        ensures absent { IfNone result (self.new.map.now ≡ self.old.map.now) }
        ensures unlinked { IfSome result (Unlinks (maps_of_view self.old) (maps_of_view self.new) from) }
    {
        if self.is_turned {
            let into = self.map.bwd().get(from)?;
            self.map.unlink(into, from);
            return Some(into);
        }
        let into = self.map.fwd().get(from)?;
        self.map.unlink(from, into);
        Some(into)
    }
}
