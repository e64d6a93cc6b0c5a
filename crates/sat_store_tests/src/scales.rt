//! Tests of activities and bumps that reach 2^60, where both are divided by 2^40. There are four variables, with a
//! decay of one half. The contracts state the activities and the bump.
ghost use Rattle.std.specs.Prelude.{◌≡◌, ◌^◌, [], ◌∷◌, OnOk, length};
ghost use Rattle.std.specs.Fn.{iterate};
ghost use Rattle.sat_store.specs.heap.Rows.{HasActivitiesAndBump, four_bumped};
ghost use Rattle.sat_store.specs.heap.Vsids.{decayed, no_variables};

use sat_base::Var;
use sat_store::Vsids;
use sat_store::law_vsids::rows_of_smaller_scales;
use std::alloc::AllocError;

/// Adds four variables, and bumps each as many times as its index.
fn bump_by_index(vsids: &mut Vsids) -> Result<(), AllocError>
    requires { vsids.old ≡ no_variables }
    ensures { OnOk result (vsids.new ≡ four_bumped) }
{
    vsids.set_var_count(4)?;
    vsids.set_decay(500);
    vsids.bump(Var::from_index(1));
    vsids.bump(Var::from_index(2));
    vsids.bump(Var::from_index(2));
    vsids.bump(Var::from_index(3));
    vsids.bump(Var::from_index(3));
    vsids.bump(Var::from_index(3));
    Ok(())
}

#[tactic(auto, using(crate::proofs::DecayLemmas::decayed_once))]
fn decay_times(vsids: &mut Vsids, times: usize)
    ensures queue { vsids.new ≡ iterate decayed times vsids.old }
    ensures available { vsids.new.available ≡ vsids.old.available }
{
    for _ in 0..times {
        vsids.decay();
    }
}

/// The fortieth decay makes the bump reach 2^60, and all activities become 0.
fn decay_sixty_times(vsids: &mut Vsids)
    requires { vsids.old ≡ four_bumped }
    ensures has { HasActivitiesAndBump (0 ∷ 0 ∷ 0 ∷ 0 ∷ []) (2 ^ 40) vsids.new }
    ensures available { length vsids.new.available ≡ 4 }
{
    rows_of_smaller_scales();
    decay_times(vsids, 60);
}

/// After 39 decays, the second bump of the last variable makes its activity reach 2^60.
fn bump_past_the_limit(vsids: &mut Vsids)
    requires { vsids.old ≡ four_bumped }
    ensures has { HasActivitiesAndBump (0 ∷ 0 ∷ 0 ∷ 2 ^ 20 ∷ []) (2 ^ 19) vsids.new }
    ensures available { length vsids.new.available ≡ 4 }
{
    rows_of_smaller_scales();
    decay_times(vsids, 39);
    let last = Var::from_index(3);
    vsids.bump(last);
    vsids.bump(last);
}

/// Returns the indices of the variables in the order in which they are picked, if all are available.
fn picked(vsids: &mut Vsids) -> [usize; 4]
    requires { length vsids.old.available ≡ 4 }
    ensures { length vsids.new.available ≡ 4 }
{
    for index in 0..4 {
        vsids.make_available(Var::from_index(index));
    }
    let mut picked = [9; 4];
    for place in picked.iter_mut() {
        if let Some(var) = vsids.next() {
            *place = var.index();
        }
    }
    picked
}

/// Bumps the first variable.
fn bump_first(vsids: &mut Vsids)
    requires { length vsids.old.available ≡ 4 }
    ensures { length vsids.new.available ≡ 4 }
{
    vsids.bump(Var::from_index(0));
}

/// Returns `true` if the lowest index is picked first after sixty decays.
fn decayed_row(vsids: &mut Vsids) -> bool
    requires { vsids.old ≡ no_variables }
{
    if bump_by_index(vsids).is_err() {
        return false;
    }
    decay_sixty_times(vsids);
    picked(vsids) == [0, 1, 2, 3]
}

/// Returns `true` if the last variable is picked first after two bumps, until two more bumps make the first one equal.
fn bumped_row(vsids: &mut Vsids) -> bool
    requires { vsids.old ≡ no_variables }
{
    if bump_by_index(vsids).is_err() {
        return false;
    }
    bump_past_the_limit(vsids);
    bump_first(vsids);
    if picked(vsids) != [3, 0, 1, 2] {
        return false;
    }
    bump_first(vsids);
    picked(vsids) == [0, 3, 1, 2]
}

#[test]
fn activities_are_divided(rt: HostRuntime) {
    assert!(rt; decayed_row(&mut Vsids::new(rt.alloc())));
    assert!(rt; bumped_row(&mut Vsids::new(rt.alloc())));
}
