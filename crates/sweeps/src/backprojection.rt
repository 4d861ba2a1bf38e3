ghost use Rattle.std.specs.Prelude.{◌≡◌, length};
ghost use Rattle.std.specs.Result.{result_err};
ghost use Rattle.scan.specs.Verdicts.{unless_refused};
ghost use Rattle.scan.specs.Meanings.{plan_of};
ghost use Rattle.calls.specs.Calls.{back};
ghost use Rattle.sweeps.specs.Checks.{sweep_check};
ghost use Rattle.sweeps.specs.Systems.{system_of};

use crate::call::checked_sweep;
use crate::pass::{Pass, Way};
use crate::sweep::sweep;
use scan::plan::Plan;
use scan::refusal::Refusal;
use values::value::Value;

/// Backprojection: each voxel gains the factor times its weighted sum of the view's working cells, in which a cell counts
/// by the multiple of its value by the weight. The working store is only lent.
///
/// The volume has `plan.voxels()` values, the working store `plan.places()`. Checks 22 and 23, by `sweep_check` of
/// specs/Checks; a refusal changes nothing. Defined by `back` of calls/specs/Calls, with the weights of scan/specs/Views.
pub fn back<V: Value>(
    plan: &Plan,
    view: usize,
    factor: V,
    volume: &mut [V],
    working: &[V],
) -> Result<(), Refusal>
    ensures answer { let s = system_of (plan_of plan.now) in
        result_err result ≡ sweep_check s view (length volume.old) (length working.now) }
    ensures volume { let s = system_of (plan_of plan.now) in
        volume.new
        ≡ unless_refused (sweep_check s view (length volume.old) (length working.now))
        (back V.Value.ops s view factor working.now volume.old) volume.old }
{
    // As `forward`, with the stores exchanged: two calls, since each is lent what the other writes.
    let cells = checked_sweep(plan, view, volume.len(), working.len())?;
    let from = &working[cells.start..cells.start + cells.count];
    let pass = Pass {
        view: &cells.view,
        way: Way::Back,
        factor,
        from,
    };
    sweep(&pass, volume);
    Ok(())
}
