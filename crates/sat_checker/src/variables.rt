//! Which variables are known, their modes, and the user's names for them.
ghost use Rattle.std.specs.Prelude.{ℕ, true, false, ◌≡◌, ◌==◌, None, Some, OnErr, OnOk, IfOk, MatchBool, map, [], ◌∷◌};
ghost use Rattle.std.specs.Prelude.{if◌then◌else◌};
ghost use Rattle.sat_base.specs.values.Literals.{variable};
ghost use Rattle.sat_checker.specs.LiteralSets.{is_among};
ghost use Rattle.sat_checker.specs.Stored.{Hide, Sample, Variable, Witness, initial_variable};
ghost use Rattle.sat_checker.specs.inner.VariablesView.{mode_in, variable_of_data, variable_at, holder_at, known_if};
ghost use Rattle.sat_checker.specs.inner.VariablesView.{unknown_data, AreSampling, HasDataRoom, HaveDataRoom};
ghost use Rattle.sat_checker.specs.inner.VariablesView.{KeepsVariableData, StoresVariables, VariablesAllow};
ghost use Rattle.sat_checker.specs.inner.VariablesView.{VariablesDecideEffect};
ghost use Rattle.sat_checker.specs.inner.VariablesView.{VariablesDecide};
ghost use Rattle.sat_base.specs.steps.Steps.{UserVarName, ChangeSamplingMode};

use sat_base::{ClauseHash, Lit, MaybeVar, Table, Var};
use std::alloc::{AllocError, Global};

/// The mode of a variable, which says how the user's formula may use the variable.
#[derive(Clone, Copy, PartialEq, Eq)]
pub enum SamplingMode {
    Sample,
    Witness,
    Hide,
}

/// Returns `true` if the mode is `Hide`.
fn is_hidden(mode: SamplingMode) -> bool
    ensures { MatchBool result (mode_in mode ≡ Hide) (mode_in mode ≡ Hide → ⊥) }
{
    match mode {
        SamplingMode::Hide => true,
        SamplingMode::Sample | SamplingMode::Witness => false,
    }
}

/// Returns `true` if the mode is `Sample`.
fn is_sampling(mode: SamplingMode) -> bool
    ensures { MatchBool result (mode_in mode ≡ Sample) (mode_in mode ≡ Sample → ⊥) }
{
    match mode {
        SamplingMode::Sample => true,
        SamplingMode::Witness | SamplingMode::Hide => false,
    }
}

/// Returns `Sample` if `sample` is true, and `Witness` otherwise.
fn mode_from(sample: bool) -> SamplingMode
    ensures { mode_in result ≡ (if sample then Sample else Witness) }
{
    if sample {
        SamplingMode::Sample
    } else {
        SamplingMode::Witness
    }
}

/// The data of a variable, in 8 bytes.
#[derive(Clone, Copy)]
pub struct VarData {
    pub known: bool,
    pub mode: SamplingMode,
    pub name: MaybeVar,
}

impl VarData {
    /// Returns the data of a variable that is not known yet.
    pub fn unknown() -> VarData
        ensures variable { variable_of_data result ≡ initial_variable }
        ensures data { result ≡ unknown_data }
    {
        VarData {
            known: false,
            mode: SamplingMode::Sample,
            name: MaybeVar::none(),
        }
    }
}

/// The data of each variable, by index, and, for each of the user's names, the variable that has it.
#[derive(Drop)]
pub struct Variables {
    data: Table<VarData>,
    holders: Table<MaybeVar>,
}

impl Variables {
    /// Creates a table in which no variable is known.
    pub fn new(alloc: Global) -> Variables
        ensures variables { (v : ℕ) → variable_at result v ≡ initial_variable }
        ensures holders { (name : ℕ) → holder_at result name ≡ None }
    {
        Variables {
            data: Table::new(alloc),
            holders: Table::new(alloc),
        }
    }

    /// Returns the data of a variable.
    pub fn data(&self, var: Var) -> VarData
        ensures { variable_of_data result ≡ variable_at self.now var }
    {
        self.data.get(var.index(), VarData::unknown())
    }

    /// Returns the variable that has the name, if there is one.
    pub fn holder(&self, name: Var) -> Option<Var>
        ensures { result ≡ holder_at self.now name }
    {
        self.holders.get(name.index(), MaybeVar::none()).get()
    }

    /// Sets the data of a variable to `state`. If memory runs out, no data changes.
    fn set(&mut self, var: Var, state: VarData) -> Result<(), AllocError>
        ensures variables { OnOk result ((v : ℕ) →
            variable_at self.new v ≡ (if v == var then variable_of_data state else variable_at self.old v)) }
        ensures err { OnErr result (KeepsVariableData self.old self.new) }
        ensures holders { (name : ℕ) → holder_at self.new name ≡ holder_at self.old name }
    {
        self.data.set(var.index(), state, VarData::unknown())
    }

    /// Returns `true` if the variable has a small index and is known.
    #[inline(always)]
    fn is_near_known(&self, var: Var) -> bool
        ensures { result ≡ true → (variable_at self.now var).known ≡ true }
    {
        let near = self.data.near();
        let index = var.index();
        if index >= near.len() {
            return false;
        }
        near[index].known
    }

    /// Makes the variable known. If it was unknown, its mode is sample. If memory runs out, no data changes.
    #[inline(always)]
    pub fn ensure_var(&mut self, var: Var) -> Result<(), AllocError>
        ensures variables { OnOk result
            ((v : ℕ) → variable_at self.new v ≡ (known_if (v == var) (variable_at self.old v))) }
        ensures err { OnErr result (KeepsVariableData self.old self.new) }
        ensures holders { (name : ℕ) → holder_at self.new name ≡ holder_at self.old name }
    {
        if self.is_near_known(var) {
            return Ok(());
        }
        self.ensure_far(var)
    }

    /// Does what `ensure_var` does, even for variables with large indices.
    #[inline(never)]
    fn ensure_far(&mut self, var: Var) -> Result<(), AllocError>
        ensures variables { OnOk result
            ((v : ℕ) → variable_at self.new v ≡ (known_if (v == var) (variable_at self.old v))) }
        ensures err { OnErr result (KeepsVariableData self.old self.new) }
        ensures holders { (name : ℕ) → holder_at self.new name ≡ holder_at self.old name }
    {
        let old = self.data(var);
        if old.known {
            return Ok(());
        }
        self.set(
            var,
            VarData {
                known: true,
                mode: old.mode,
                name: old.name,
            },
        )
    }

    /// Makes room for the data of a variable. No data changes, even if memory runs out.
    fn make_room(&mut self, var: Var) -> Result<(), AllocError>
        ensures room { OnOk result (HasDataRoom self.new var) }
        ensures others { (v : ℕ) → HasDataRoom self.old v → HasDataRoom self.new v }
        ensures same { KeepsVariableData self.old self.new }
        ensures holders { (name : ℕ) → holder_at self.new name ≡ holder_at self.old name }
    {
        self.data.make_room(var.index(), VarData::unknown())
    }

    /// Makes the variable known. If it was unknown, its mode is sample. There must be room for its data.
    fn set_known(&mut self, var: Var)
        requires { HasDataRoom self.old var }
        ensures variables { (v : ℕ) → variable_at self.new v ≡ known_if (v == var) (variable_at self.old v) }
        ensures room { (v : ℕ) → HasDataRoom self.old v → HasDataRoom self.new v }
        ensures holders { (name : ℕ) → holder_at self.new name ≡ holder_at self.old name }
    {
        let old = self.data(var);
        self.data.put(
            var.index(),
            VarData {
                known: true,
                mode: old.mode,
                name: old.name,
            },
        );
    }

    /// Returns `true` if the variables of the literals have small indices and are known.
    #[tactic(auto, using(crate::proofs::lemmas::variables::Keeping::ensuring))]
    fn are_near_known(&self, literals: &[Lit]) -> bool
        ensures { result ≡ true → (v : ℕ) → known_if (is_among (map variable literals.now) v) (variable_at self.now v)
            ≡ variable_at self.now v }
    {
        for lit in literals {
            if !self.is_near_known(lit.var()) {
                return false;
            }
        }
        true
    }

    /// Makes room for the data of the variables of the literals. No data changes, even if memory runs out.
    #[tactic(auto, using(crate::proofs::lemmas::variables::Keeping::ensuring))]
    fn make_room_for(&mut self, literals: &[Lit]) -> Result<(), AllocError>
        ensures room { OnOk result (HaveDataRoom self.new (map variable literals.now)) }
        ensures same { KeepsVariableData self.old self.new }
        ensures holders { (name : ℕ) → holder_at self.new name ≡ holder_at self.old name }
    {
        for lit in literals {
            self.make_room(lit.var())?;
        }
        Ok(())
    }

    /// Makes the variables of the literals known. The mode of those that were unknown is sample. There must be room for
    /// their data.
    #[tactic(auto, using(crate::proofs::lemmas::variables::Keeping::ensuring))]
    fn set_all_known(&mut self, literals: &[Lit])
        requires { HaveDataRoom self.old (map variable literals.now) }
        ensures variables { (v : ℕ) →
            variable_at self.new v ≡ known_if (is_among (map variable literals.now) v) (variable_at self.old v) }
        ensures holders { (name : ℕ) → holder_at self.new name ≡ holder_at self.old name }
    {
        for lit in literals {
            self.set_known(lit.var());
        }
    }

    /// Makes the variables of the literals known. The mode of those that were unknown is sample. If memory runs out, no
    /// data changes.
    pub fn ensure_vars(&mut self, literals: &[Lit]) -> Result<(), AllocError>
        ensures variables { OnOk result ((v : ℕ) →
            variable_at self.new v ≡ known_if (is_among (map variable literals.now) v) (variable_at self.old v)) }
        ensures err { OnErr result (KeepsVariableData self.old self.new) }
        ensures holders { (name : ℕ) → holder_at self.new name ≡ holder_at self.old name }
    {
        if self.are_near_known(literals) {
            return Ok(());
        }
        self.make_room_for(literals)?;
        self.set_all_known(literals);
        Ok(())
    }

    /// Makes the variables of the literals known. The mode of those that were unknown is sample. If memory runs out, no
    /// data changes.
    pub fn learn(&mut self, literals: &[Lit]) -> Result<(), AllocError>
        ensures ok { OnOk result ((g : ℕ → Variable) → StoresVariables self.old g
            → StoresVariables self.new (λ v. known_if (is_among (map variable literals.now) v) (g v))) }
        ensures err { OnErr result (KeepsVariableData self.old self.new) }
    {
        self.ensure_vars(literals)
    }

    /// Makes room for the data of the variables of the units. No data changes, even if memory runs out.
    #[tactic(auto, using(crate::proofs::lemmas::variables::Keeping::ensuring_units))]
    fn make_unit_room(&mut self, units: &[(Lit, ClauseHash)]) -> Result<(), AllocError>
        ensures room { OnOk result (HaveDataRoom self.new (map variable (map (λ u. u.0) units.now))) }
        ensures same { KeepsVariableData self.old self.new }
        ensures holders { (name : ℕ) → holder_at self.new name ≡ holder_at self.old name }
    {
        for unit in units {
            self.make_room(unit.0.var())?;
        }
        Ok(())
    }

    /// Makes the variables of the units known. The mode of those that were unknown is sample. There must be room for
    /// their data.
    #[tactic(auto, using(crate::proofs::lemmas::variables::Keeping::ensuring_units))]
    fn set_units_known(&mut self, units: &[(Lit, ClauseHash)])
        requires { HaveDataRoom self.old (map variable (map (λ u. u.0) units.now)) }
        ensures variables { (v : ℕ) → variable_at self.new v
            ≡ known_if (is_among (map variable (map (λ u. u.0) units.now)) v) (variable_at self.old v) }
        ensures holders { (name : ℕ) → holder_at self.new name ≡ holder_at self.old name }
    {
        for unit in units {
            self.set_known(unit.0.var());
        }
    }

    /// Makes the variables of the units known. The mode of those that were unknown is sample. If memory runs out, no
    /// data changes.
    pub fn learn_units(&mut self, units: &[(Lit, ClauseHash)]) -> Result<(), AllocError>
        ensures ok { OnOk result ((g : ℕ → Variable) → StoresVariables self.old g
            → StoresVariables self.new (λ v. known_if (is_among (map variable (map (λ u. u.0) units.now)) v) (g v))) }
        ensures err { OnErr result (KeepsVariableData self.old self.new) }
    {
        self.make_unit_room(units)?;
        self.set_units_known(units);
        Ok(())
    }

    /// Makes the variable known. If it was unknown, its mode is sample. If memory runs out, no data changes.
    pub fn learn_var(&mut self, var: Var) -> Result<(), AllocError>
        ensures ok { OnOk result ((g : ℕ → Variable) → StoresVariables self.old g
            → StoresVariables self.new (λ v. known_if (is_among (var ∷ []) v) (g v))) }
        ensures err { OnErr result (KeepsVariableData self.old self.new) }
    {
        self.ensure_var(var)
    }

    /// Returns `true` if `var` may get the name `name`: the name is free, and the variable has no name and isn't
    /// hidden.
    fn may_get_name(&self, var: Var, name: Var) -> bool
        ensures { VariablesDecide self.now (UserVarName var (Some name)) result }
    {
        if self.holder(name).is_some() {
            return false;
        }
        let data = self.data(var);
        if data.name.get().is_some() {
            return false;
        }
        if is_hidden(data.mode) {
            return false;
        }
        true
    }

    /// Returns `true` if `var` may get the name `user`, or, if `user` is `None`, may lose its name.
    pub(crate) fn may_rename(&self, var: Var, user: Option<Var>) -> bool
        ensures { VariablesDecide self.now (UserVarName var user) result }
    {
        match user {
            Some(name) => self.may_get_name(var, name),
            None => self.data(var).name.get().is_some(),
        }
    }

    /// Gives `var` the name `name`, and makes the variable known. Returns `true` if this is allowed, that is, if the
    /// name is free and the variable has no name and isn't hidden. If memory runs out, no data changes.
    pub fn add_user_mapping(&mut self, var: Var, name: Var) -> Result<bool, AllocError>
        ensures answers { IfOk result (VariablesDecideEffect self.old (UserVarName var (Some name)) self.new) }
        ensures on_error { OnErr result (VariablesAllow self.old (UserVarName var (Some name))) }
        ensures refused { IfOk result (λ given. given ≡ false → self.new ≡ self.old) }
        ensures err { OnErr result (KeepsVariableData self.old self.new) }
    {
        if !self.may_get_name(var, name) {
            return Ok(false);
        }
        let old = self.data(var);
        self.set_holder(name, Some(var))?;
        self.set(
            var,
            VarData {
                known: true,
                mode: old.mode,
                name: MaybeVar::new(Some(name)),
            },
        )?;
        Ok(true)
    }

    /// Removes a variable's name, and hides the variable. Returns `true` if the variable had a name. If memory runs
    /// out, no data changes.
    pub fn remove_user_mapping(&mut self, var: Var) -> Result<bool, AllocError>
        ensures answers { IfOk result (VariablesDecideEffect self.old (UserVarName var None) self.new) }
        ensures on_error { OnErr result (VariablesAllow self.old (UserVarName var None)) }
        ensures refused { IfOk result (λ taken. taken ≡ false → self.new ≡ self.old) }
        ensures err { OnErr result (KeepsVariableData self.old self.new) }
    {
        let old = self.data(var);
        let Some(name) = old.name.get() else {
            return Ok(false);
        };
        self.set_holder(name, None)?;
        self.set(
            var,
            VarData {
                known: old.known,
                mode: SamplingMode::Hide,
                name: MaybeVar::none(),
            },
        )?;
        Ok(true)
    }

    /// Gives `var` the name `user`, or removes its name if `user` is `None`. Returns `true` if this is allowed. If
    /// memory runs out, no data changes.
    pub(crate) fn rename(&mut self, var: Var, user: Option<Var>) -> Result<bool, AllocError>
        ensures answers { IfOk result (VariablesDecideEffect self.old (UserVarName var user) self.new) }
        ensures on_error { OnErr result (VariablesAllow self.old (UserVarName var user)) }
        ensures refused { IfOk result (λ renamed. renamed ≡ false → self.new ≡ self.old) }
        ensures err { OnErr result (KeepsVariableData self.old self.new) }
    {
        match user {
            Some(name) => self.add_user_mapping(var, name),
            None => self.remove_user_mapping(var),
        }
    }

    /// Sets the mode of a known variable: sample if `sample` is true, and witness otherwise. Returns `true` if the
    /// variable is known. If memory runs out, no data changes.
    pub fn set_mode(&mut self, var: Var, sample: bool) -> Result<bool, AllocError>
        ensures answers { IfOk result (VariablesDecideEffect self.old (ChangeSamplingMode var sample) self.new) }
        ensures on_error { OnErr result (VariablesAllow self.old (ChangeSamplingMode var sample)) }
        ensures refused { IfOk result (λ set. set ≡ false → self.new ≡ self.old) }
        ensures err { OnErr result (KeepsVariableData self.old self.new) }
    {
        let old = self.data(var);
        if !old.known {
            return Ok(false);
        }
        let mode = mode_from(sample);
        self.set(
            var,
            VarData {
                known: old.known,
                mode,
                name: old.name,
            },
        )?;
        Ok(true)
    }

    /// Makes a variable unknown again. The variable must not have a name. Never allocates.
    pub fn forget(&mut self, var: Var)
        ensures { (g : ℕ → Variable) → StoresVariables self.old g → (g var).name ≡ None
            → StoresVariables self.new (λ w. if w == var then initial_variable else g w) }
    {
        self.data.reset(var.index(), VarData::unknown());
    }

    /// Returns `true` if every variable of the literals is unknown or has the mode sample.
    #[tactic(auto, using(crate::proofs::lemmas::variables::Keeping::sampling))]
    pub fn are_sampling(&self, literals: &[Lit]) -> bool
        ensures { MatchBool result (AreSampling self.now literals.now) (AreSampling self.now literals.now → ⊥) }
    {
        for lit in literals {
            if !is_sampling(self.data(lit.var()).mode) {
                return false;
            }
        }
        true
    }

    /// Records that `holder` has the name `name`, or that no variable has it.
    fn set_holder(&mut self, name: Var, holder: Option<Var>) -> Result<(), AllocError>
        ensures holders { OnOk result ((q : ℕ) → holder_at self.new q
            ≡ (if q == name then holder else holder_at self.old q)) }
        ensures variables { (v : ℕ) → variable_at self.new v ≡ variable_at self.old v }
    {
        self.holders
            .set(name.index(), MaybeVar::new(holder), MaybeVar::none())
    }
}
