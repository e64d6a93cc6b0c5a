//! The lists of the current step, whose memory is reused.
ghost use Rattle.std.specs.Prelude.{◌≡◌, ◌<◌, ◌≤◌, []};
ghost use Rattle.sat_base.specs.device.Device.{max_read_size};
ghost use Rattle.sat_base.specs.device.ReadRoom.{HasCapacityFor, HasItemRoom};
ghost use Rattle.sat_base.specs.steps.StepViews.{step_of};
ghost use Rattle.sat_base.specs.steps.Kinds.{step_with};

use crate::device::ahead::PIECE;
use crate::steps::kind::StepKind;
use crate::{ClauseHash, Lit, ProofStep};
use std::alloc::Global;

/// Buffers for the lists of a step.
#[derive(Drop)]
pub(crate) struct Lists {
    pub(crate) literals: Vec<Lit>,
    pub(crate) hashes: Vec<ClauseHash>,
    pub(crate) units: Vec<(Lit, ClauseHash)>,
}

impl Lists {
    /// Returns empty lists. Never allocates.
    pub(crate) fn new(alloc: Global) -> Lists
        ensures literals { result.literals.items ≡ [] }
        ensures hashes { result.hashes.items ≡ [] }
        ensures units { result.units.items ≡ [] }
    {
        Lists {
            literals: Vec::new(alloc),
            hashes: Vec::new(alloc),
            units: Vec::new(alloc),
        }
    }

    /// If no bytes are unread, empties the lists, and requests memory for the items of a chunk, of which every byte may
    /// be one.
    pub(crate) fn make_room(&mut self, unread: usize)
        requires { HasCapacityFor self.old unread }
        ensures { HasCapacityFor self.new unread }
    {
        if unread > 0 {
            return;
        }
        self.literals.clear();
        self.hashes.clear();
        self.units.clear();
        let _ = self.literals.reserve(PIECE);
        let _ = self.hashes.reserve(PIECE);
        let _ = self.units.reserve(PIECE);
    }

    /// Returns how many bytes of a step may be read at once: at most one more than each of the lists has capacity for,
    /// since the first byte of a chunk that is not read for an item completes none.
    pub(crate) fn room(&self, unread: usize) -> usize
        requires few { unread ≤ max_read_size }
        requires capacity { HasCapacityFor self.now unread }
        ensures lists { HasItemRoom self.now result }
        ensures unread { unread < result }
    {
        let least = self.literals.capacity().min(self.hashes.capacity());
        least.min(self.units.capacity()).min(PIECE) + 1
    }

    /// Returns the step that has this kind and these lists.
    pub(crate) fn step(&self, kind: StepKind) -> ProofStep<'_>
        ensures { step_of result ≡ step_with kind self.now.literals.items self.now.hashes.items self.now.units.items }
    {
        let literals = self.literals.as_slice();
        let propagation_hashes = self.hashes.as_slice();
        match kind {
            StepKind::SolverVarName { global, solver } => ProofStep::SolverVarName {
                global,
                solver,
            },
            StepKind::UserVarName { global, user } => ProofStep::UserVarName { global, user },
            StepKind::DeleteVar { var } => ProofStep::DeleteVar { var },
            StepKind::ChangeSamplingMode { var, sample } => {
                ProofStep::ChangeSamplingMode { var, sample }
            }
            StepKind::AddClause => ProofStep::AddClause { clause: literals },
            StepKind::AtClause { redundant } => ProofStep::AtClause {
                redundant,
                clause: literals,
                propagation_hashes,
            },
            StepKind::UnitClauses => ProofStep::UnitClauses {
                units: self.units.as_slice(),
            },
            StepKind::DeleteClause { proof } => ProofStep::DeleteClause {
                clause: literals,
                proof,
            },
            StepKind::ChangeHashBits { bits } => ProofStep::ChangeHashBits { bits },
            StepKind::Model => ProofStep::Model {
                assignment: literals,
            },
            StepKind::Assumptions => ProofStep::Assumptions {
                assumptions: literals,
            },
            StepKind::FailedAssumptions => ProofStep::FailedAssumptions {
                failed_core: literals,
                propagation_hashes,
            },
            StepKind::End => ProofStep::End,
        }
    }
}
