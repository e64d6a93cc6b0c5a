//! Tests of maps between variables, and of data about variables.
use sat_base::{Lit, Var};
use sat_store::{SamplingMode, TmpData, TmpFlags, VarBiMap, VarData, VarMap};
use std::alloc::AllocError;

fn put_two(map: &mut VarMap) -> Result<(), AllocError> {
    if map.get(Var::from_index(2)).is_none() {
        map.insert(Var::from_index(9), Var::from_index(2))?;
    }
    if map.get(Var::from_index(0)).is_none() {
        map.insert(Var::from_index(4), Var::from_index(0))?;
    }
    Ok(())
}

#[test]
fn map_gives_what_was_put(rt: HostRuntime) {
    let mut map = VarMap::new(rt.alloc());
    assert!(rt; (map.watermark(), map.get(Var::from_index(2))) == (0, None));
    assert!(rt; put_two(&mut map).is_ok());
    assert!(rt; map.get(Var::from_index(2)) == Some(Var::from_index(9)));
    assert!(rt; map.get(Var::from_index(1)).is_none());
    map.remove(Var::from_index(2));
    map.remove(Var::from_index(7));
    assert!(rt; (map.watermark(), map.get(Var::from_index(2))) == (3, None));
    assert!(rt; map.get(Var::from_index(0)) == Some(Var::from_index(4)));
}

fn link_both_ways(map: &mut VarBiMap) -> Result<(), AllocError> {
    let (one, five) = (Var::from_index(1), Var::from_index(5));
    if map.fwd().get(one).is_none() && map.bwd().get(five).is_none() {
        map.fwd_mut().insert(five, one)?;
    }
    let (three, six) = (Var::from_index(3), Var::from_index(6));
    if map.bwd().get(six).is_none() && map.fwd().get(three).is_none() {
        map.bwd_mut().insert(three, six)?;
    }
    Ok(())
}

#[test]
fn both_maps_agree(rt: HostRuntime) {
    let mut map = VarBiMap::new(rt.alloc());
    assert!(rt; link_both_ways(&mut map).is_ok());
    assert!(rt; map.fwd().get(Var::from_index(1)) == Some(Var::from_index(5)));
    assert!(rt; map.bwd().get(Var::from_index(5)) == Some(Var::from_index(1)));
    assert!(rt; map.fwd().get(Var::from_index(3)) == Some(Var::from_index(6)));
    assert!(rt; (map.fwd().watermark(), map.bwd().watermark()) == (4, 7));
}

#[test]
fn unlinked_on_both_sides(rt: HostRuntime) {
    let mut map = VarBiMap::new(rt.alloc());
    assert!(rt; link_both_ways(&mut map).is_ok());
    assert!(rt; map.bwd_mut().remove(Var::from_index(5)) == Some(Var::from_index(1)));
    assert!(rt; map.fwd_mut().remove(Var::from_index(1)).is_none());
    assert!(rt; map.fwd().get(Var::from_index(1)).is_none());
    assert!(rt; map.fwd_mut().remove(Var::from_index(3)) == Some(Var::from_index(6)));
    assert!(rt; map.bwd().get(Var::from_index(6)).is_none());
}

#[test]
fn data_of_variables(rt: HostRuntime) {
    let data = VarData::default();
    assert!(rt; data.sampling_mode == SamplingMode::Hide);
    assert!(rt;
        (data.unit, data.isolated, data.assumed, data.deleted) == (None, true, false, true)
    );
    let data = VarData::user_default();
    assert!(rt; data.sampling_mode == SamplingMode::Sample);
    assert!(rt;
        (data.unit, data.isolated, data.assumed, data.deleted) == (None, true, false, false)
    );
}

#[test]
fn flags_are_two_a_variable(rt: HostRuntime) {
    let mut flags = TmpFlags::new(rt.alloc());
    assert!(rt; flags.set_var_count(3).is_ok());
    assert!(rt; flags.flags.as_slice() == [false; 6].as_slice());
    assert!(rt; flags.set_var_count(1).is_ok());
    assert!(rt; flags.flags.len() == 2);
    let mut data = TmpData::new(rt.alloc());
    assert!(rt; data.lits.push(Lit::from_code(3)).is_ok());
    assert!(rt; (data.lits.len(), data.lits_2.len()) == (1, 0));
}
