//! Tests of which variable is picked.
ghost use Rattle.std.specs.Prelude.{◌≡◌, OnOk, length};
ghost use Rattle.sat_store.specs.heap.Vsids.{no_variables};

use sat_base::Var;
use sat_store::Vsids;
use std::alloc::AllocError;

/// The number of variables.
const COUNT: usize = 8;

/// Bumps each variable as many times as `times` has at its index.
fn bump_each(vsids: &mut Vsids, times: &[usize; 8])
    requires { length vsids.old.available ≡ COUNT }
    ensures { length vsids.new.available ≡ COUNT }
{
    for (index, count) in times.iter().enumerate() {
        for _ in 0..*count {
            vsids.bump(Var::from_index(index));
        }
    }
}

fn make_each(vsids: &mut Vsids, available: bool)
    requires { length vsids.old.available ≡ COUNT }
    ensures { length vsids.new.available ≡ COUNT }
{
    for index in 0..COUNT {
        if available {
            vsids.make_available(Var::from_index(index));
        } else {
            vsids.make_unavailable(Var::from_index(index));
        }
    }
}

/// Fills `picked` with the indices of the next variables, or with 9 if there are no more.
fn next_indices(vsids: &mut Vsids, picked: &mut [usize])
    requires { length vsids.old.available ≡ COUNT }
    ensures { length vsids.new.available ≡ COUNT }
{
    for place in picked.iter_mut() {
        *place = match vsids.next() {
            Some(var) => var.index(),
            None => 9,
        };
    }
}

/// Adds eight variables with a decay of one half, and bumps each while none is available, as many times as its index.
fn bumped_by_index(vsids: &mut Vsids) -> Result<(), AllocError>
    requires { vsids.old ≡ no_variables }
    ensures { OnOk result (length vsids.new.available ≡ COUNT) }
{
    vsids.set_var_count(COUNT)?;
    vsids.set_decay(500);
    make_each(vsids, true);
    make_each(vsids, false);
    bump_each(vsids, &[0, 1, 2, 3, 4, 5, 6, 7]);
    make_each(vsids, true);
    Ok(())
}

fn decayed_and_bumped(vsids: &mut Vsids)
    requires { length vsids.old.available ≡ COUNT }
    ensures { length vsids.new.available ≡ COUNT }
{
    vsids.decay();
    vsids.decay();
    bump_each(vsids, &[8, 7, 6, 5, 4, 3, 2, 1]);
}

#[test]
fn most_active_first(rt: HostRuntime) {
    let mut vsids = Vsids::new(rt.alloc());
    if bumped_by_index(&mut vsids).is_err() {
        panic!(rt; "no memory");
    }
    let mut picked = [0; 4];
    next_indices(&mut vsids, &mut picked);
    assert!(rt; picked == [7, 6, 5, 4]);
    decayed_and_bumped(&mut vsids);
    let mut picked = [0; 5];
    next_indices(&mut vsids, &mut picked);
    assert!(rt; picked == [0, 1, 2, 3, 9]);
}

/// Returns `true` if a variable that was bumped and then reset is picked after another one that was bumped.
fn reset_goes_last(vsids: &mut Vsids) -> bool
    requires { vsids.old ≡ no_variables }
{
    if vsids.set_var_count(2).is_err() {
        return false;
    }
    vsids.bump(Var::from_index(0));
    vsids.reset(Var::from_index(0));
    vsids.bump(Var::from_index(1));
    vsids.make_available(Var::from_index(0));
    vsids.make_available(Var::from_index(1));
    vsids.next() == Some(Var::from_index(1))
}

#[test]
fn reset_activity_is_lowest(rt: HostRuntime) {
    let mut vsids = Vsids::new(rt.alloc());
    assert!(rt; reset_goes_last(&mut vsids));
}
