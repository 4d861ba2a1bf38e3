ghost use Rattle.std.specs.Prelude.{◌≡◌, ◌↔◌, IsTrue, None, length};
ghost use Rattle.std.specs.Result.{result_err};
ghost use Rattle.scan.specs.Meanings.{plan_of};
ghost use Rattle.scan.specs.Verdicts.{Verdict, unless_refused};
ghost use Rattle.calls.specs.RowLaws.{Matched, Linear};
ghost use Rattle.calls.specs.Rows.{Fits, accepted, made_by, outcome, refusals};
ghost use Rattle.calls.specs.Stores.{three};
ghost use Rattle.sweeps.specs.Checks.{call_check, row_check};
ghost use Rattle.sweeps.specs.Systems.{system_of};
ghost use Rattle.sweeps.specs.Shadows.{Conserved};

use crate::backprojection::back;
use crate::call::checked_stores;
use crate::projection::forward;
use crate::scaling::scale;
use crate::transfer::{give, take};
use crate::trimming::trim;
use calls::call::Call;
use scan::plan::Plan;
use scan::refusal::Refusal;
use values::value::Value;

/// Makes one call, as it would go alone: whoever runs a row call by call gets each call's own refusal. Checks what the call
/// checks, and answers that; a refused call alters no store.
///
/// On stores of the plan's lengths a call is accepted, as a row's definition has it, exactly where its own check finds
/// nothing. What a call is checked for is `call_check` of specs/Checks, what it makes of the stores `made_by` of
/// calls/specs/Rows.
#[tactic(auto, using(crate::proofs::RowFacts::accepted_where_none))]
pub fn perform<V: Value>(
    plan: &Plan,
    call: Call<V>,
    volume: &mut [V],
    measured: &mut [V],
    working: &mut [V],
) -> Result<(), Refusal>
    ensures answer { let s = system_of (plan_of plan.now) in
        let start = three volume.old measured.old working.old in
        result_err result ≡ call_check s call start }
    ensures stores { let s = system_of (plan_of plan.now) in
        let start = three volume.old measured.old working.old in
        three volume.new measured.new working.new
        ≡ unless_refused (call_check s call start)
        (made_by V.Value.ops s call start) start }
    ensures accepted { let s = system_of (plan_of plan.now) in
        let start = three volume.old measured.old working.old in
        Fits s start → (IsTrue (accepted s call) ↔ (call_check s call start ≡ None)) }
{
    match call {
        Call::Forward { view, factor } => forward(plan, view, factor, volume, working),
        Call::Back { view, factor } => back(plan, view, factor, volume, working),
        Call::Take { view, factor } => take(plan, view, factor, measured, working),
        Call::Give { view, factor } => give(plan, view, factor, measured, working),
        Call::Scale { view, factor } => scale(plan, view, factor, working),
        Call::Trim { within } => trim(plan, within, volume),
    }
}

/// Runs a row of calls, from first to last, and answers how many of them were refused: each goes as by `perform`, and one is
/// counted where it is not accepted, which on stores of the plan's lengths is where its own check refuses it. A refused call
/// alters nothing, and the row goes on. Stores of other lengths than the plan's are refused (23), and then nothing changes.
/// Defined by `outcome` of calls/specs/Rows.
///
/// The last three clauses are the theorem on rows. They speak of every sealed plan, every row and all stores of the plan's
/// lengths, and not only of those given here: the mirrored row is the transpose, the outcome is linear in the start, and
/// overlaps add up to shadows. Stated by `Matched` and `Linear` of calls/specs/RowLaws and `Conserved` of specs/Shadows.
pub fn run<V: Value>(
    plan: &Plan,
    row: &[Call<V>],
    volume: &mut [V],
    measured: &mut [V],
    working: &mut [V],
) -> Result<usize, Refusal>
    ensures answer { let s = system_of (plan_of plan.now) in
        Verdict (row_check s (length volume.old) (length measured.old) (length working.old))
        (λ refused. refused ≡ refusals s row.now) result }
    ensures stores { let s = system_of (plan_of plan.now) in
        let start = three volume.old measured.old working.old in
        three volume.new measured.new working.new
        ≡ unless_refused (row_check s (length volume.old) (length measured.old) (length working.old))
        (outcome V.Value.ops s row.now start) start }
    ensures matched { (sealed : Plan) → Matched V.Value.ops (system_of (plan_of sealed)) }
    ensures linear { (sealed : Plan) → Linear V.Value.ops (system_of (plan_of sealed)) }
    ensures conserved { (sealed : Plan) → Conserved (plan_of sealed) }
{
    checked_stores(plan, volume.len(), measured.len(), working.len())?;
    let mut refused = 0;
    for &call in row {
        if perform(plan, call, volume, measured, working).is_err() {
            refused += 1;
        }
    }
    Ok(refused)
}
