ghost use Rattle.std.specs.Prelude.{◌≡◌, ℕ, ◌<◌, length};
ghost use Rattle.std.specs.Result.{result_err};
ghost use Rattle.scan.specs.Verdicts.{unless_refused};
ghost use Rattle.scan.specs.Meanings.{plan_of};
ghost use Rattle.calls.specs.Stores.{at};
ghost use Rattle.calls.specs.Calls.{transfer};
ghost use Rattle.sweeps.specs.Checks.{transfer_check};
ghost use Rattle.sweeps.specs.Systems.{system_of};

use crate::alter::alter;
use crate::call::checked_transfer;
use scan::plan::Plan;
use scan::refusal::Refusal;
use values::value::Value;

/// Takes from the measured store: each working cell of the view gains the factor times its measured cell. Both stores have
/// `plan.places()` values. Checks 22 and 23, by `transfer_check` of specs/Checks; a refusal changes nothing. Defined by
/// `transfer` of calls/specs/Calls.
pub fn take<V: Value>(
    plan: &Plan,
    view: usize,
    factor: V,
    measured: &[V],
    working: &mut [V],
) -> Result<(), Refusal>
    ensures answer { let s = system_of (plan_of plan.now) in
        result_err result ≡ transfer_check s view (length measured.now) (length working.old) }
    ensures working { let s = system_of (plan_of plan.now) in
        working.new
        ≡ unless_refused (transfer_check s view (length measured.now) (length working.old))
        (transfer V.Value.ops s view factor measured.now working.old) working.old }
{
    let cells = checked_transfer(plan, view, measured.len(), working.len())?;
    let end = cells.start + cells.count;
    gain(
        factor,
        &measured[cells.start..end],
        &mut working[cells.start..end],
    );
    Ok(())
}

/// Gives to the measured store: each measured cell of the view gains the factor times its working cell. Both stores have
/// `plan.places()` values. Checks 22 and 23, by `transfer_check` of specs/Checks; a refusal changes nothing. Defined by
/// `transfer` of calls/specs/Calls.
pub fn give<V: Value>(
    plan: &Plan,
    view: usize,
    factor: V,
    measured: &mut [V],
    working: &[V],
) -> Result<(), Refusal>
    ensures answer { let s = system_of (plan_of plan.now) in
        result_err result ≡ transfer_check s view (length measured.old) (length working.now) }
    ensures measured { let s = system_of (plan_of plan.now) in
        measured.new
        ≡ unless_refused (transfer_check s view (length measured.old) (length working.now))
        (transfer V.Value.ops s view factor working.now measured.old) measured.old }
{
    let cells = checked_transfer(plan, view, measured.len(), working.len())?;
    let end = cells.start + cells.count;
    gain(
        factor,
        &working[cells.start..end],
        &mut measured[cells.start..end],
    );
    Ok(())
}

// Each place gains the factor times what stands at the same place of another store.
fn gain<V: Value>(factor: V, from: &[V], to: &mut [V])
    requires { length from.now ≡ length to.old }
    ensures { (i : ℕ) → i < length to.old → at V.Value.ops to.new i ≡ V.Value.ops.plus (at V.Value.ops to.old i) (V.Value.ops.times factor (at V.Value.ops from.now i)) }
{
    alter(
        to,
        |i: usize, value: V|
            requires { i < length from.now }
            ensures { result ≡ V.Value.ops.plus value (V.Value.ops.times factor (at V.Value.ops from.entry.now i)) }
        { value.plus(factor.times(from[i])) },
    );
}
