//! The data of a search, and the data of a solver.
ghost use Rattle.std.specs.Prelude.{◌≡◌, []};
ghost use Rattle.sat_solver.specs.session.Session.{empty_session};
ghost use Rattle.sat_solver.specs.cdcl.Joint.{SearchInvariant};

use crate::SolverConfig;
use crate::analyze_conflict::AnalyzeConflict;
use crate::proof::Proof;
use sat_base::{ClauseHash, CountedWrite, Lit, Var};
use sat_checker::{Nobody, ProofProcessor};
use sat_parts::parts::assumptions::Assumptions;
use sat_parts::parts::new_search_state;
use sat_parts::{ClauseActivity, SearchState};
use sat_store::TmpFlags;
use std::alloc::Global;

/// Lists in which the parts of a step are prepared.
#[derive(Drop)]
pub struct Scratch {
    pub clause: Vec<Lit>,
    pub hashes: Vec<ClauseHash>,
    pub units: Vec<(Lit, ClauseHash)>,
}

/// The data of a search, apart from its proof.
#[derive(Drop)]
pub struct Search {
    pub alloc: Global,
    pub parts: SearchState,
    pub assumptions: Assumptions,
    pub analysis: AnalyzeConflict,
    pub activity: ClauseActivity,
    pub flags: TmpFlags,
    /// The proof variable for every index of the search.
    pub globals: Vec<Var>,
    pub scratch: Scratch,
    /// The assumption that failed last.
    pub failed: Lit,
}

/// The proof, the search and the parameters of a solver.
#[derive(Drop)]
pub struct Context<W: CountedWrite + Drop, P: ProofProcessor = Nobody> {
    pub proof: Proof<W, P>,
    pub search: Search,
    pub config: SolverConfig,
}

/// Creates a search without variables, clauses or assumptions. Never allocates.
pub fn new_search(alloc: Global) -> Search
    ensures search { SearchInvariant empty_session result }
    ensures bottom { result.parts.trail.starts ≡ [] }
    ensures values { result.parts.assignment.current ≡ [] }
    ensures globals { result.globals.items ≡ [] }
{
    Search {
        alloc,
        parts: new_search_state(alloc),
        assumptions: Assumptions::new(alloc),
        analysis: AnalyzeConflict::new(alloc),
        activity: ClauseActivity::default(),
        flags: TmpFlags::new(alloc),
        globals: Vec::new(alloc),
        scratch: Scratch {
            clause: Vec::new(alloc),
            hashes: Vec::new(alloc),
            units: Vec::new(alloc),
        },
        failed: Lit::from_code(0),
    }
}
