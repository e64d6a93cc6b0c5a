//! Proof steps without their lists.

use crate::{DeleteClauseProof, HashBits, Var};

/// The kind of a step, and all of its fields except for the lists.
#[derive(Clone, Copy)]
pub(crate) enum StepKind {
    SolverVarName { global: Var, solver: Option<Var> },
    UserVarName { global: Var, user: Option<Var> },
    DeleteVar { var: Var },
    ChangeSamplingMode { var: Var, sample: bool },
    AddClause,
    AtClause { redundant: bool },
    UnitClauses,
    DeleteClause { proof: DeleteClauseProof },
    ChangeHashBits { bits: HashBits },
    Model,
    Assumptions,
    FailedAssumptions,
    End,
}
