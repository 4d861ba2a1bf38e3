use crate::example::{PLAN, VOXELS};
use planfile::fault::Fault;
use planfile::plan::read_plan;
use planfile::voxels::{read_values, read_values_from, voxel_values};
use std::test::Fail;
use values::count::Count;

// The values that the example's section says.
const VALUES: [i64; 4] = [1, -1, 2_147_483_647, -2_147_483_648];

fn told<T: Drop>(read: Result<T, Fault>) -> Option<(u8, usize)> {
    read.err().map(|fault| (fault.number(), fault.place()))
}

#[test]
fn values_go_to_their_places(rt: HostRuntime) -> Result<(), Fail> {
    let (plan, _rest) = read_plan(&PLAN)?;
    let mut volume = [Count::from(7); 4];
    assert_eq!(rt; read_values(&plan, &VOXELS, &mut volume), Ok(()));
    assert_eq!(rt; volume.map(i64::from), VALUES);
    Ok(())
}

#[test]
fn values_are_lent_by_number(rt: HostRuntime) -> Result<(), Fail> {
    let (plan, _rest) = read_plan(&PLAN)?;
    let values = voxel_values(&plan, &VOXELS, 0)?;
    assert_eq!(rt; values.len(), 4);
    assert_eq!(rt; [0, 1, 2, 3].map(|i| i64::from(values.number(i))), VALUES);
    assert_eq!(rt; told(voxel_values(&plan, &VOXELS[..19], 0)), Some((1, 16)));
    Ok(())
}

#[test]
fn values_are_read_from_a_place_on(rt: HostRuntime) -> Result<(), Fail> {
    let heap = rt.alloc();
    let mut bytes = PLAN.to_vec(heap)?;
    bytes.extend_from_slice(&VOXELS)?;
    let (plan, _rest) = read_plan(&bytes)?;
    let mut volume = [Count::from(7); 4];
    assert_eq!(rt; read_values_from(&plan, &bytes, 100, &mut volume), Ok(()));
    assert_eq!(rt; volume.map(i64::from), VALUES);
    assert_eq!(rt;
        told(read_values_from(&plan, &bytes[..117], 100, &mut volume)),
        Some((1, 116))
    );
    Ok(())
}

#[test]
fn refused_values_change_nothing(rt: HostRuntime) -> Result<(), Fail> {
    let (plan, _rest) = read_plan(&PLAN)?;
    let old = [Count::from(7); 4];
    let mut volume = old;
    assert_eq!(rt;
        told(read_values(&plan, &VOXELS[..3], &mut volume)),
        Some((1, 0))
    );
    assert_eq!(rt; told(read_values(&plan, &PLAN, &mut volume)), Some((2, 0)));
    assert_eq!(rt;
        told(read_values(&plan, &VOXELS[..19], &mut volume)),
        Some((1, 16))
    );
    assert_eq!(rt; volume, old);
    Ok(())
}

#[test]
fn bytes_after_and_lengths_are_refused(rt: HostRuntime) -> Result<(), Fail> {
    let heap = rt.alloc();
    let (plan, _rest) = read_plan(&PLAN)?;
    let (mut short, mut volume) = ([Count::from(7); 3], [Count::from(7); 5]);
    let mut bytes = VOXELS.to_vec(heap)?;
    // The store's length is checked last.
    bytes.push(0)?;
    assert_eq!(rt;
        told(read_values(&plan, &bytes, &mut volume)),
        Some((3, 20))
    );
    assert_eq!(rt;
        told(read_values(&plan, &VOXELS, &mut volume)),
        Some((23, 0))
    );
    assert_eq!(rt;
        told(read_values(&plan, &VOXELS, &mut short)),
        Some((23, 0))
    );
    assert_eq!(rt; volume, [Count::from(7); 5]);
    Ok(())
}
