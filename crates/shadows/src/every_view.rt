// Forward and back in every view, onto stores of zeros.
ghost use Rattle.std.specs.Prelude.{◌≡◌, length};
ghost use Rattle.scan.specs.Meanings.{plan_of};
ghost use Rattle.calls.specs.Stores.{built};
ghost use Rattle.calls.specs.Systems.{voxels, places};
ghost use Rattle.sweeps.specs.Systems.{system_of};
ghost use Rattle.shadows.specs.EveryView.{projected, backprojected};

use scan::plan::Plan;
use sweeps::backprojection::back;
use sweeps::projection::forward;
use values::value::Value;

// Projects a volume forward in every view, onto cells that are zero.
pub(crate) fn project<V: Value>(plan: &Plan, factor: V, volume: &[V], working: &mut [V])
    requires volume { let s = system_of (plan_of plan.now) in length volume.now ≡ voxels s }
    requires working { let s = system_of (plan_of plan.now) in
        working.old ≡ built (places s) (λ _. V.Value.ops.zero) }
    ensures { let s = system_of (plan_of plan.now) in
        working.new ≡ projected V.Value.ops s factor volume.now }
{
    for view in 0..plan.views() {
        // The plan has the view, and the stores its lengths: nothing is refused.
        forward(plan, view, factor, volume, working).unwrap();
    }
}

// Projects the cells of every view back, onto voxels that are zero.
pub(crate) fn backproject<V: Value>(plan: &Plan, factor: V, volume: &mut [V], working: &[V])
    requires volume { let s = system_of (plan_of plan.now) in
        volume.old ≡ built (voxels s) (λ _. V.Value.ops.zero) }
    requires working { let s = system_of (plan_of plan.now) in length working.now ≡ places s }
    ensures { let s = system_of (plan_of plan.now) in
        volume.new ≡ backprojected V.Value.ops s factor working.now }
{
    for view in 0..plan.views() {
        // As in `project`, nothing is refused.
        back(plan, view, factor, volume, working).unwrap();
    }
}
