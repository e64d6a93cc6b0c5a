//! Adds a clause over names.
ghost use Rattle.std.specs.Prelude.{◌≡◌, true, ◌∷◌, [], map, OnOk, IfOk, IfErr};
ghost use Rattle.sat_base.specs.script.ScriptState.{with_clause};
ghost use Rattle.sat_base.specs.steps.Steps.{AddClause};
ghost use Rattle.sat_solver.specs.load.Literals.{HaveNoWitness, SameLiterals, user_literal, AreImages, MapsClause};
ghost use Rattle.sat_solver.specs.load.Clauses.{IntroducesClause, OmitsClause};
ghost use Rattle.sat_checker.specs.matching.Expected.{Adds};
ghost use Rattle.sat_solver.specs.variables.Calls.{NamesInvariant, ChangesScriptState};
ghost use Rattle.sat_solver.specs.variables.Variables.{VariablesInvariant};
ghost use Rattle.sat_solver.specs.session.Session.{session_after};
ghost use Rattle.sat_checker.specs.LiteralSets.{is_tautology};
ghost use Rattle.sat_solver.specs.variables.NameFailures.{IsFailure, EmitsOrFails, FailsOnlyByFault};
ghost use Rattle.sat_solver.specs.variables.VariableRoom.{user_vars_in};

use crate::load::literals::{MappedLits, solver_from_user_lits};
use crate::proof::map_step::map_lits;
use crate::variables::Variables;
use crate::variables::error::NameError;
use crate::variables::log::StepLog;
use crate::variables::user_vars::global_from_user;
use sat_base::{Lit, ProofStep};
use sat_checker::sorted_lits::copy_canonical;

/// Writes `clause`, which must contain the same literals as `_user`, over proof variables. No name in `_user` may have
/// the mode witness.
fn write_clause<W: StepLog>(
    _variables: &Variables,
    writer: &mut W,
    _user: &[Lit],
    clause: &[Lit],
) -> Result<(), NameError>
    requires valid { NamesInvariant _variables.now (W.steps writer.old) }
    requires keeps { W.keeps writer.old }
    requires literals { SameLiterals _variables.now _user.now clause.now }
    ensures does { OnOk result (ChangesScriptState _variables.now _variables.now (W.steps writer.old) (W.steps writer.new)
        (with_clause (map user_literal _user.now)) (λ j. Adds (map user_literal _user.now) ∷ [])) }
    ensures step { OnOk result (W.steps writer.new ≡ AddClause clause.now ∷ W.steps writer.old) }
    ensures fails { IfErr result IsFailure }
    ensures keeps { OnOk result (W.keeps writer.new) }
    ensures emits { EmitsOrFails W.took W.broke result writer.old writer.new }
{
    writer.step(&ProofStep::AddClause { clause })?;
    Ok(())
}

/// Lists the literals of `taken.order` in `taken.lits`, sorted and without repetitions, and lists the result over proof
/// variables in `taken.globals`. Returns `true` if the clause contains both literals of some variable.
fn map_clause(
    variables: &Variables,
    _user: &[Lit],
    taken: &mut MappedLits,
) -> Result<bool, NameError>
    requires tidy { VariablesInvariant variables.now }
    requires images { AreImages variables.now _user.now taken.old.order.items }
    ensures maps { OnOk result (MapsClause variables.now taken.new) }
    ensures signs { IfOk result (λ both. both ≡ is_tautology taken.new.order.items) }
    ensures order { taken.new.order ≡ taken.old.order }
    ensures given { taken.new.given ≡ taken.old.given }
    ensures memory { IfErr result (λ e. e ≡ NameError.OutOfMemory) }
{
    let both_signs = copy_canonical(&mut taken.lits, &taken.order)?;
    map_lits(&variables.globals, &taken.lits, &mut taken.globals)?;
    Ok(both_signs)
}

/// Introduces the names of a clause, none of which may have the mode witness, and writes the clause. Stores what the
/// search needs in `taken`. Returns `true` if the clause contains both literals of some variable.
pub fn add_clause<W: StepLog>(
    variables: &mut Variables,
    writer: &mut W,
    lits: &[Lit],
    taken: &mut MappedLits,
) -> Result<bool, NameError>
    requires valid { NamesInvariant variables.old (W.steps writer.old) }
    requires keeps { W.keeps writer.old }
    requires sampled { HaveNoWitness variables.old lits.now }
    ensures adds { IfOk result (IntroducesClause variables.old variables.new (W.steps writer.old) (W.steps writer.new)
        lits.now taken.new) }
    ensures room { FailsOnlyByFault result variables.old (user_vars_in lits.now) }
    ensures keeps { OnOk result (W.keeps writer.new) }
    ensures emits { EmitsOrFails W.took W.broke result writer.old writer.new }
{
    solver_from_user_lits(variables, writer, lits, taken)?;
    let both_signs = map_clause(variables, lits, taken)?;
    write_clause(variables, writer, lits, &taken.globals)?;
    Ok(both_signs)
}

/// Introduces the names of a clause, but does not write the clause. The clauses must be known to be unsatisfiable.
pub fn leave_out_clause<W: StepLog>(
    variables: &mut Variables,
    writer: &mut W,
    lits: &[Lit],
) -> Result<(), NameError>
    requires valid { NamesInvariant variables.old (W.steps writer.old) }
    requires keeps { W.keeps writer.old }
    requires unsat { (session_after (W.steps writer.old)).unsat ≡ true }
    ensures leaves { OnOk result (OmitsClause variables.old variables.new (W.steps writer.old) (W.steps writer.new)
        lits.now) }
    ensures room { FailsOnlyByFault result variables.old (user_vars_in lits.now) }
    ensures keeps { OnOk result (W.keeps writer.new) }
    ensures emits { EmitsOrFails W.took W.broke result writer.old writer.new }
{
    for lit in lits {
        global_from_user(variables, writer, lit.var())?;
    }
    Ok(())
}
