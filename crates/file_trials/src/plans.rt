use crate::example::{PLAN, VOXELS};
use planfile::plan::read_plan;
use scan::landed::Landed;
use scan::plan::Plan;
use scan::scan_axis::ScanAxis;
use std::test::Fail;

// The number and the place of the fault at which the reading of a plan ends.
fn refused(bytes: &[u8]) -> Option<(u8, usize)> {
    let fault = read_plan(bytes).err()?;
    Some((fault.number(), fault.place()))
}

fn sizes(plan: &Plan) -> [usize; 6] {
    [
        plan.views(),
        plan.cells_along(ScanAxis::X),
        plan.cells_along(ScanAxis::Y),
        plan.cells_along(ScanAxis::Z),
        plan.cells_along(ScanAxis::Column),
        plan.cells_along(ScanAxis::Row),
    ]
}

#[test]
fn a_plan_and_no_more(rt: HostRuntime) -> Result<(), Fail> {
    let (plan, rest) = read_plan(&PLAN)?;
    assert_eq!(rt; sizes(&plan), [2, 2, 2, 1, 2, 1]);
    assert!(rt; rest.is_empty());
    Ok(())
}

#[test]
fn its_views_land_as_worked_out(rt: HostRuntime) -> Result<(), Fail> {
    let (plan, _rest) = read_plan(&PLAN)?;
    let view = plan.view(0).ok_or("the plan has view 0")?;
    // The slab from 0 to 100.
    assert_eq!(rt;
        (
            view.cross_edge(1, 0),
            view.cross_edge(1, 1),
            view.cross_edge(1, 2)
        ),
        (-105, 0, 105)
    );
    assert_eq!(rt; (view.height_edge(1, 0), view.height_edge(1, 1)), (-53, 53));
    Ok(())
}

#[test]
fn what_follows_is_handed_back(rt: HostRuntime) -> Result<(), Fail> {
    let heap = rt.alloc();
    let mut bytes = PLAN.to_vec(heap)?;
    bytes.extend_from_slice(&VOXELS)?;
    bytes.push(9)?;
    let (plan, rest) = read_plan(&bytes)?;
    assert_eq!(rt; plan.views(), 2);
    assert_eq!(rt; rest.len(), 21);
    assert_eq!(rt; &rest[..20], VOXELS.as_slice());
    assert_eq!(rt; rest[20], 9);
    Ok(())
}

#[test]
fn the_first_fault_is_told(rt: HostRuntime) -> Result<(), Fail> {
    assert_eq!(rt; refused(&[]), Some((1, 0)));
    assert_eq!(rt; refused(&PLAN[..99]), Some((1, 96)));
    let mut bytes = PLAN;
    // The last step becomes 64, and then besides the last edge of x equals the one before it.
    bytes[96] = 64;
    assert_eq!(rt; refused(&bytes), Some((9, 96)));
    bytes[24] = 0;
    assert_eq!(rt; refused(&bytes), Some((4, 24)));
    Ok(())
}
