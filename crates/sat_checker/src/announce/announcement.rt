//! What the checker announces about the steps that it accepts.
ghost use Rattle.std.specs.Prelude.{◌≡◌};
ghost use Rattle.sat_checker.specs.announcements.Transcripts.{user_from_proof_var};
ghost use Rattle.sat_checker.specs.inner.NotifyingSteps.{with_earlier_data, earlier_data_of};
ghost use Rattle.sat_checker.specs.inner.VariablesView.{variable_at, variable_of_data};
ghost use Rattle.sat_checker.specs.listeners.AnnouncementView.{variables_of};

use crate::variables::{SamplingMode, VarData, Variables};
use sat_base::{Lit, Var};

/// The mode of a variable that has a name.
#[derive(Clone, Copy)]
pub enum CheckedSamplingMode {
    /// Clauses of the formula, models and cores may contain the variable.
    Sample,
    /// No clause of the formula may contain the variable.
    Witness,
}

/// What is announced about a variable that has a name.
#[derive(Clone, Copy)]
pub struct CheckedUserVar {
    pub user_var: Var,
    pub sampling_mode: CheckedSamplingMode,
    /// Whether the variable was unknown until now.
    pub new_var: bool,
}

/// The clauses from which the resolvents on a pivot follow. No step has such clauses yet, so there are no fields.
#[derive(Clone, Copy)]
pub struct ResolutionPropagations {}

/// An announcement, which borrows its lists. Clauses and cores are sorted and contain no repeats. `propagations` are
/// the ids of the clauses from which the announced clause or core follows by propagation.
#[derive(Clone, Copy)]
pub enum CheckedProofStep<'a> {
    /// A variable gets a name or another mode, or, if `user_var` is `None`, loses its name.
    UserVar {
        var: Var,
        user_var: Option<CheckedUserVar>,
    },
    /// A variable is deleted, together with its unit, if it has one. The variable is unknown from now on.
    DeleteVar {
        var: Var,
    },
    /// A new clause of the formula.
    AddClause {
        id: u64,
        clause: &'a [Lit],
    },
    /// A clause of the formula that is already stored, under the id `same_as_id`.
    DuplicatedClause {
        id: u64,
        same_as_id: u64,
        clause: &'a [Lit],
    },
    /// A clause of the formula that contains both signs of a variable. Such a clause isn't stored.
    TautologicalClause {
        id: u64,
        clause: &'a [Lit],
    },
    /// A new clause that follows from others.
    AtClause {
        id: u64,
        redundant: bool,
        clause: &'a [Lit],
        propagations: &'a [u64],
    },
    /// A clause that was stored only as redundant is irredundant from now on.
    MakeIrredundant {
        id: u64,
        clause: &'a [Lit],
    },
    /// A redundant clause is removed.
    DeleteClause {
        id: u64,
        clause: &'a [Lit],
    },
    /// A clause that follows from others is no longer irredundant. If `keep_as_redundant` is false, the clause
    /// is removed.
    DeleteAtClause {
        id: u64,
        keep_as_redundant: bool,
        clause: &'a [Lit],
        propagations: &'a [u64],
    },
    /// A clause is no longer irredundant, because its resolvents on a hidden pivot follow from others. This is
    /// never announced.
    DeleteRatClause {
        id: u64,
        keep_as_redundant: bool,
        clause: &'a [Lit],
        pivot: Lit,
        propagations: ResolutionPropagations,
    },
    /// A valuation that satisfies the formula. Its literals are in the same order as in the step.
    Model {
        assignment: &'a [Lit],
    },
    /// The literals that are assumed from now on, in the same order as in the step.
    Assumptions {
        assumptions: &'a [Lit],
    },
    /// Assumptions that can't all be true.
    FailedAssumptions {
        failed_core: &'a [Lit],
        propagations: &'a [u64],
    },
}

/// A variable, and its data before the current step.
#[derive(Drop)]
pub(crate) struct EarlierData {
    pub(crate) var: Var,
    pub(crate) data: VarData,
}

/// What listeners can look up during an announcement: the variables as they were before the step. The field `known` of
/// their data may already have its new value, but no announcement or name depends on it.
#[derive(Clone, Copy)]
pub struct CheckerData<'a> {
    variables: &'a Variables,
    /// The variable whose name or mode the step may have changed, with its data before the step.
    was: Option<&'a EarlierData>,
}

impl<'a> CheckerData<'a> {
    /// Returns a view of the variables with their current data.
    pub fn new(variables: &'a Variables) -> CheckerData<'a>
        ensures { variables_of result ≡ variable_at variables.now }
    {
        CheckerData {
            variables,
            was: None,
        }
    }

    /// Returns a view of the variables in which the variable of `was`, if any, has its earlier data.
    pub(crate) fn before(variables: &'a Variables, was: &'a Option<EarlierData>) -> CheckerData<'a>
        ensures { variables_of result ≡ with_earlier_data (earlier_data_of was.now) (variable_at variables.now) }
    {
        match was {
            Some(was) => CheckerData {
                variables,
                was: Some(was),
            },
            None => CheckerData::new(variables),
        }
    }

    /// Returns the data of a variable before the step.
    fn data(self, proof_var: Var) -> VarData
        ensures { variable_of_data result ≡ variables_of self.entry proof_var }
    {
        if let Some(was) = self.was {
            if proof_var == was.var {
                return was.data;
            }
        }
        self.variables.data(proof_var)
    }

    /// Returns the explicit name of a variable, if it has one.
    pub(crate) fn explicit_name(self, proof_var: Var) -> Option<Var>
        ensures { result ≡ (variables_of self.entry proof_var).name }
    {
        self.data(proof_var).name.get()
    }

    /// Returns the user's name for a variable: its explicit name if it has one, or else the variable itself if its mode
    /// is sample.
    pub fn user_from_proof_var(self, proof_var: Var) -> Option<Var>
        ensures { result ≡ user_from_proof_var (variables_of self.entry) proof_var }
    {
        let data = self.data(proof_var);
        if let Some(name) = data.name.get() {
            return Some(name);
        }
        match data.mode {
            SamplingMode::Sample => Some(proof_var),
            SamplingMode::Witness | SamplingMode::Hide => None,
        }
    }
}
