//! Checks whether calls are refused, before anything changes.
ghost use Rattle.std.specs.Prelude.{◌≡◌, ◌+◌, true, false, IfNone};
ghost use Rattle.sat_base.specs.script.ScriptState.{ScriptState, has_witness, identity_of, refusal_of_names};
ghost use Rattle.sat_checker.specs.matching.Bridge.{LiveVariables};
ghost use Rattle.sat_solver.specs.variables.Variables.{VariablesInvariant, NamesMatchState, is_witness_kept};
ghost use Rattle.sat_solver.specs.load.Literals.{IsSampled, HaveNoWitness};
ghost use Rattle.sat_solver.specs.variables.Refusing.{as_refusal, names_in, IsAssumed};

use crate::variables::Variables;
use sat_base::{Lit, Var};
use sat_store::SamplingMode;

/// Returns `true` if clauses and assumptions are refused that contain a name with this mode.
fn is_witness_mode(mode: SamplingMode) -> bool
    ensures { result ≡ is_witness_kept mode }
{
    match mode {
        SamplingMode::Witness => true,
        SamplingMode::Sample | SamplingMode::Hide => false,
    }
}

/// Returns `true` if a name is in use and has the mode witness.
fn is_witness(variables: &Variables, user: Var) -> bool
    requires { VariablesInvariant variables.now }
    ensures judged { (j : ScriptState) (live : LiveVariables) → NamesMatchState variables.now j live
        → result ≡ has_witness j (identity_of j (user + 1)) }
    ensures sampled { result ≡ false → IsSampled variables.now user }
{
    if !variables.witnessed {
        return false;
    }
    let Some(global) = variables.global_from_user.fwd().get(user) else {
        return false;
    };
    is_witness_mode(variables.mode(global))
}

/// Returns the leftmost name in `lits` that has the mode witness, or `None`.
pub fn leftmost_witness(variables: &Variables, lits: &[Lit]) -> Option<Var>
    requires { VariablesInvariant variables.now }
    ensures judged { (j : ScriptState) (live : LiveVariables) → NamesMatchState variables.now j live
        → refusal_of_names j (names_in lits.now) ≡ as_refusal result }
    ensures sampled { IfNone result (HaveNoWitness variables.now lits.now) }
{
    for lit in lits {
        let user = lit.var();
        let _within = user.index();
        if is_witness(variables, user) {
            return Some(user);
        }
    }
    None
}

/// Returns `true` if a name is in use and assumed, so that it cannot be hidden and its mode cannot be set.
pub fn is_assumed(variables: &Variables, user: Var) -> bool
    requires { VariablesInvariant variables.now }
    ensures assumed { result ≡ true → IsAssumed variables.now user }
    ensures free { result ≡ false → IsAssumed variables.now user → ⊥ }
{
    let Some(global) = variables.global_from_user.fwd().get(user) else {
        return false;
    };
    variables.is_marked(global)
}
