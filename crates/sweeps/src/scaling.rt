ghost use Rattle.std.specs.Prelude.{◌≡◌, length};
ghost use Rattle.std.specs.Result.{result_err};
ghost use Rattle.scan.specs.Verdicts.{unless_refused};
ghost use Rattle.scan.specs.Meanings.{plan_of};
ghost use Rattle.calls.specs.Calls.{scale};
ghost use Rattle.sweeps.specs.Checks.{scale_check};
ghost use Rattle.sweeps.specs.Systems.{system_of};

use crate::alter::alter;
use crate::call::checked_scale;
use scan::plan::Plan;
use scan::refusal::Refusal;
use values::value::Value;

/// Multiplies each working cell of the view by the factor. The store has `plan.places()` values. Checks 22 and 23, by
/// `scale_check` of specs/Checks; a refusal changes nothing. Defined by `scale` of calls/specs/Calls.
pub fn scale<V: Value>(
    plan: &Plan,
    view: usize,
    factor: V,
    working: &mut [V],
) -> Result<(), Refusal>
    ensures answer { let s = system_of (plan_of plan.now) in
        result_err result ≡ scale_check s view (length working.old) }
    ensures working { let s = system_of (plan_of plan.now) in
        working.new
        ≡ unless_refused (scale_check s view (length working.old))
        (scale V.Value.ops s view factor working.old) working.old }
{
    let cells = checked_scale(plan, view, working.len())?;
    alter(
        &mut working[cells.start..cells.start + cells.count],
        |_: usize, cell: V|
            ensures { result ≡ V.Value.ops.times factor cell }
        { factor.times(cell) },
    );
    Ok(())
}
