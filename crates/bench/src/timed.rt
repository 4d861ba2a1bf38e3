// Every view forward and back, and how long it took.
use crate::speed::Speed;
use anyhow::Result;
use scan::plan::Plan;
use std::rt::Clock;
use std::time::Instant;
use sweeps::backprojection::back;
use sweeps::projection::forward;
use values::count::Count;

#[derive(Clone, Copy)]
pub(crate) struct Speeds {
    pub(crate) forward: Speed,
    pub(crate) back: Speed,
}

// Each view forward and then back, so that the next view sees what the last one left.
pub(crate) fn sweep_all(
    rt: &impl Clock,
    plan: &Plan,
    volume: &mut [Count],
    working: &mut [Count],
) -> Result<Speeds> {
    let mut speeds = Speeds {
        forward: Speed::new(),
        back: Speed::new(),
    };
    let one = Count::from(1);
    for view in 0..plan.views() {
        let start = Instant::now(rt)?;
        forward(plan, view, one, volume, working)?;
        speeds.forward = speeds.forward.with(plan.voxels(), start.elapsed(rt)?);
        let start = Instant::now(rt)?;
        back(plan, view, one, volume, working)?;
        speeds.back = speeds.back.with(plan.voxels(), start.elapsed(rt)?);
    }
    Ok(speeds)
}

#[cfg(test)]
mod tests {
    use super::*;
    use crate::arguments::{Arguments, Grid};
    use crate::scanner::{planned, voxels};
    use std::test::Fail;
    use values::value::Value;

    #[test]
    fn every_voxel_counts_once_a_view(rt: HostRuntime) -> Result<(), Fail> {
        let arguments = Arguments {
            side: 2,
            heights: 3,
            views: 2,
            columns: 1,
            rows: 1,
            grid: Grid::Even,
            timed: true,
        };
        let plan = planned(rt.alloc(), &arguments)?;
        let mut volume = voxels(rt.alloc(), &plan)?;
        let mut working = vec![in rt.alloc(); Count::ZERO; plan.places()]?;
        let speeds = sweep_all(&rt, &plan, &mut volume, &mut working)?;
        assert_eq!(rt; (speeds.forward.updates, speeds.back.updates), (24, 24));
        Ok(())
    }
}
