ghost use Rattle.std.specs.Prelude.{◌≡◌, length};
ghost use Rattle.std.specs.Result.{result_err};
ghost use Rattle.scan.specs.Verdicts.{unless_refused};
ghost use Rattle.scan.specs.Meanings.{plan_of};
ghost use Rattle.calls.specs.Calls.{forward};
ghost use Rattle.sweeps.specs.Checks.{sweep_check};
ghost use Rattle.sweeps.specs.Systems.{system_of};

use crate::call::checked_sweep;
use crate::pass::{Pass, Way};
use crate::sweep::sweep;
use scan::plan::Plan;
use scan::refusal::Refusal;
use values::value::Value;

/// Forward projection: each working cell of the view gains the factor times its weighted sum of all voxels, in which a
/// voxel counts by the multiple of its value by the weight. The volume is only lent.
///
/// The volume has `plan.voxels()` values, the working store `plan.places()`. Checks 22 and 23, by `sweep_check` of
/// specs/Checks; a refusal changes nothing. Defined by `forward` of calls/specs/Calls, with the weights of scan/specs/Views.
pub fn forward<V: Value>(
    plan: &Plan,
    view: usize,
    factor: V,
    volume: &[V],
    working: &mut [V],
) -> Result<(), Refusal>
    ensures answer { let s = system_of (plan_of plan.now) in
        result_err result ≡ sweep_check s view (length volume.now) (length working.old) }
    ensures working { let s = system_of (plan_of plan.now) in
        working.new
        ≡ unless_refused (sweep_check s view (length volume.now) (length working.old))
        (forward V.Value.ops s view factor volume.now working.old) working.old }
{
    let cells = checked_sweep(plan, view, volume.len(), working.len())?;
    let pass = Pass {
        view: &cells.view,
        way: Way::Forward,
        factor,
        from: volume,
    };
    sweep(&pass, &mut working[cells.start..cells.start + cells.count]);
    Ok(())
}
