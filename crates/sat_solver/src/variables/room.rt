//! Checks whether there is a variable for every name that would be introduced.
ghost use Rattle.std.specs.Prelude.{◌≡◌, ◌+◌, ◌<◌, ◌≤◌, [], ◌∷◌, length};
ghost use Rattle.sat_base.specs.values.Literals.{var_limit};
ghost use Rattle.sat_checker.specs.LiteralSets.{mentions};
ghost use Rattle.sat_solver.specs.variables.VariableRoom.{live_count, reach, user_vars_in, hidden_count, ReportsRoom};
ghost use Rattle.sat_solver.specs.variables.VariableRoom.{hidden_count_from};
ghost use Rattle.sat_solver.specs.variables.Variables.{VariablesInvariant};

use crate::variables::Variables;
use sat_base::{Lit, Var};

/// Returns the number of variables that are not in use.
fn unused_count(variables: &Variables) -> usize
    requires { VariablesInvariant variables.now }
    ensures { result + live_count variables.now ≡ var_limit }
{
    let live = variables.used_count() - variables.free_globals.count();
    Var::max_count() - live
}

/// Returns the lowest name above all names in `lits` and all names that have ever been used. `used` is the number of
/// the latter.
fn name_reach(used: usize, lits: &[Lit]) -> usize
    requires { used ≤ var_limit }
    ensures is { result ≡ reach used (user_vars_in lits.now) }
    ensures within { result ≤ var_limit }
{
    let mut top = used;
    for lit in lits {
        top = top.max(lit.index() + 1);
    }
    top
}

/// Returns `true` if one of the literals has the name `user`.
#[tactic(auto, using(sat_checker::proofs::lemmas::state::Scanning::any_literal))]
fn has_name(lits: &[Lit], user: Var) -> bool
    ensures { result ≡ mentions lits.now user }
{
    for lit in lits {
        if lit.var() == user {
            return true;
        }
    }
    false
}

/// Returns `count`, plus one if the name of the literal at position `at` is hidden.
///
/// The name is not counted if a later literal has the same name.
fn count_hidden_name(variables: &Variables, lits: &[Lit], at: usize, count: usize) -> usize
    requires within { at < length lits.now }
    requires count { count ≤ var_limit }
    ensures { count ≡ hidden_count_from variables.now lits.now (at + 1) → result ≡ hidden_count_from variables.now lits.now at }
{
    let user = lits[at].var();
    if user.index() >= variables.name_count() {
        return count;
    }
    if variables.global_from_user.fwd().get(user).is_some() {
        return count;
    }
    if has_name(&lits[at + 1..], user) {
        return count;
    }
    count + 1
}

/// Returns the number of hidden names in `lits`. Each name is counted once.
fn count_hidden(variables: &Variables, lits: &[Lit]) -> usize
    requires { VariablesInvariant variables.now }
    ensures { result ≡ hidden_count variables.now (user_vars_in lits.now) }
{
    let mut count = 0;
    for at in (0..lits.len()).rev() {
        count = count_hidden_name(variables, lits, at, count);
    }
    count
}

/// Returns `true` if there is a variable for every name that would be introduced with `lits`.
///
/// If this depends on how many times names occur, every hidden name is searched for among the later literals.
pub fn has_room(variables: &Variables, lits: &[Lit]) -> bool
    requires { VariablesInvariant variables.now }
    ensures { ReportsRoom result variables.now (user_vars_in lits.now) }
{
    let left = unused_count(variables);
    let used = variables.name_count();
    let never = name_reach(used, lits) - used;
    if never > left {
        return false;
    }
    if lits.len() <= left - never {
        return true;
    }
    let hidden = count_hidden(variables, lits);
    hidden <= left - never
}

/// Returns `true` if there is a variable for every name that would be introduced with `user`.
pub fn has_room_for(variables: &Variables, user: Var) -> bool
    requires { VariablesInvariant variables.now }
    ensures { ReportsRoom result variables.now (user ∷ []) }
{
    let left = unused_count(variables);
    let used = variables.name_count();
    if user.index() >= used {
        return user.index() - used < left;
    }
    if variables.global_from_user.fwd().get(user).is_some() {
        return true;
    }
    0 < left
}
