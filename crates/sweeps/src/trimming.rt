ghost use Rattle.std.specs.Prelude.{◌≡◌, ℕ, ◌<◌, ◌&&◌, if◌then◌else◌, length};
ghost use Rattle.std.specs.Result.{result_err};
ghost use Rattle.scan.specs.Verdicts.{unless_refused};
ghost use Rattle.scan.specs.Meanings.{plan_of};
ghost use Rattle.scan.specs.Scans.{voxels_of};
ghost use Rattle.calls.specs.Boxes.{contains, box_contains, in_box};
ghost use Rattle.calls.specs.Calls.{trim};
ghost use Rattle.calls.specs.Stores.{at};
ghost use Rattle.sweeps.specs.Checks.{trim_check};
ghost use Rattle.sweeps.specs.Systems.{system_of};

use crate::alter::alter;
use crate::call::checked_trim;
use calls::voxel_box::VoxelBox;
use scan::plan::Plan;
use scan::refusal::Refusal;
use scan::scan_axis::ScanAxis;
use values::value::Value;

/// Keeps the voxels in the box, and sets the others to zero. The volume has `plan.voxels()` values. Checks 23 and 24, by
/// `trim_check` of specs/Checks; a refusal changes nothing. Defined by `trim` of calls/specs/Calls.
pub fn trim<V: Value>(plan: &Plan, within: VoxelBox, volume: &mut [V]) -> Result<(), Refusal>
    ensures answer { let s = system_of (plan_of plan.now) in
        result_err result ≡ trim_check s within (length volume.old) }
    ensures volume { let s = system_of (plan_of plan.now) in
        volume.new
        ≡ unless_refused (trim_check s within (length volume.old))
        (trim V.Value.ops s within volume.old) volume.old }
{
    checked_trim(plan, within, volume.len())?;
    trim_lines(plan, within, volume);
    Ok(())
}

// Line after line along x: whether a line lies in the box along y and z is asked once, and not once a voxel.
fn trim_lines<V: Value>(plan: &Plan, within: VoxelBox, volume: &mut [V])
    requires { length volume.old ≡ voxels_of (plan_of plan.now) }
    ensures { let s = system_of (plan_of plan.now) in
        (p : ℕ) → p < length volume.old → at V.Value.ops volume.new p
        ≡ (if in_box s within p then at V.Value.ops volume.old p else V.Value.ops.zero) }
{
    let nx = plan.cells_along(ScanAxis::X);
    let ny = plan.cells_along(ScanAxis::Y);
    for line in 0..plan.cells_along(ScanAxis::Z) * ny {
        let start = line * nx;
        trim_line(within, line % ny, line / ny, &mut volume[start..start + nx]);
    }
}

// The voxels (0, j, l), (1, j, l), .. stay where they lie in the box, and become zero where they do not.
fn trim_line<V: Value>(within: VoxelBox, j: usize, l: usize, line: &mut [V])
    ensures { (i : ℕ) → i < length line.old → at V.Value.ops line.new i
        ≡ (if box_contains within i j l then at V.Value.ops line.old i else V.Value.ops.zero) }
{
    let kept = within.y.contains(j) && within.z.contains(l);
    alter(
        line,
        |i: usize, voxel: V|
            ensures { result ≡ (if contains within.x i && kept then voxel else V.Value.ops.zero) }
        {
            if within.x.contains(i) && kept {
                voxel
            } else {
                V::ZERO
            }
        },
    );
}
