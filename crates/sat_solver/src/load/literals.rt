//! Introduces the names of literals, and gives their variables indices.
ghost use Rattle.std.specs.Prelude.{◌≡◌, [], OnOk};
ghost use Rattle.sat_solver.specs.load.Literals.{IntroducesLiterals};
ghost use Rattle.sat_solver.specs.variables.Calls.{NamesInvariant};
ghost use Rattle.sat_solver.specs.variables.NameFailures.{EmitsOrFails, FailsOnlyByFault};
ghost use Rattle.sat_solver.specs.variables.VariableRoom.{user_vars_in};

use crate::variables::Variables;
use crate::variables::error::NameError;
use crate::variables::log::StepLog;
use crate::variables::solver_vars::{Given, solver_from_global};
use crate::variables::user_vars::global_from_user;
use sat_base::Lit;
use std::alloc::Global;

/// The literals of a clause or of assumptions, as the search and the proof need them.
#[derive(Drop)]
pub struct MappedLits {
    /// The literals over indices of the search, in the order in which they were passed.
    pub order: Vec<Lit>,

    /// The literals over indices of the search, sorted by code and without repetitions.
    pub lits: Vec<Lit>,

    /// The literals over proof variables, as they were written.
    pub globals: Vec<Lit>,

    /// The indices that were given to variables of the literals, in order.
    pub given: Vec<Given>,
}

impl MappedLits {
    /// Creates a value with empty lists. Never allocates.
    pub fn new(alloc: Global) -> MappedLits
        ensures order { result.order.items ≡ [] }
        ensures globals { result.globals.items ≡ [] }
    {
        MappedLits {
            order: Vec::new(alloc),
            lits: Vec::new(alloc),
            globals: Vec::new(alloc),
            given: Vec::new(alloc),
        }
    }
}

/// Introduces the names in `lits` from left to right, and gives indices to those of their variables that have none.
/// Lists the literals over indices in `taken.order`, and the new indices in `taken.given`.
pub fn solver_from_user_lits<W: StepLog>(
    variables: &mut Variables,
    writer: &mut W,
    lits: &[Lit],
    taken: &mut MappedLits,
) -> Result<(), NameError>
    requires valid { NamesInvariant variables.old (W.steps writer.old) }
    requires keeps { W.keeps writer.old }
    ensures takes { OnOk result (IntroducesLiterals variables.old variables.new (W.steps writer.old) (W.steps writer.new)
        lits.now taken.new) }
    ensures room { FailsOnlyByFault result variables.old (user_vars_in lits.now) }
    ensures globals { taken.new.globals ≡ taken.old.globals }
    ensures keeps { OnOk result (W.keeps writer.new) }
    ensures emits { EmitsOrFails W.took W.broke result writer.old writer.new }
{
    taken.order.clear();
    taken.given.clear();
    for lit in lits {
        let global = global_from_user(variables, writer, lit.var())?;
        let solver = solver_from_global(variables, writer, global, &mut taken.given)?;
        taken.order.push(solver.lit(lit.is_positive()))?;
    }
    Ok(())
}
