// The values of a plan's voxels read from bytes.
ghost use Rattle.std.specs.Prelude.{◌≡◌, length, map};
ghost use Rattle.std.specs.Result.{result_err};
ghost use Rattle.scan.specs.Meanings.{plan_of};
ghost use Rattle.scan.specs.Scans.{voxels_of};
ghost use Rattle.scan.specs.Verdicts.{Verdict, unless_refused};
ghost use Rattle.planfile.specs.Numbers.{numbers_in};
ghost use Rattle.planfile.specs.Sections.{section_at};
ghost use Rattle.planfile.specs.FileChecks.{voxels_check, values_check};
ghost use Rattle.planfile.specs.Plans.{values_in};
ghost use Rattle.values.specs.Counts.{count_of};

use crate::cursor::Cursor;
use crate::fault::Fault;
use crate::numbers::Numbers;
use crate::placed::Placed;
use scan::plan::Plan;
use scan::refusal::{Refusal, Store};
use values::count::Count;

/// The values of the plan's voxels, from byte `start` on, as numbers that are lent on: nothing is copied or written. Checks
/// 1, 2, 1, 3, by `voxels_check` of specs/FileChecks; places count from byte 0.
#[tactic(auto, using(std::proofs::lemmas::Result::err_from_is_err_and, crate::proofs::Values::values_long))]
pub fn voxel_values<'a>(plan: &Plan, bytes: &'a [u8], start: usize) -> Result<Numbers<'a>, Fault>
    ensures { let n = voxels_of (plan_of plan.now) in
        Verdict (voxels_check bytes.now start n) (λ values. (numbers_in values.bytes.now ≡ section_at bytes.now start) × (length (numbers_in values.bytes.now) ≡ n)) result }
{
    let mut cursor = Cursor {
        bytes,
        offset: start,
    };
    let voxels = plan.voxels();
    let section = cursor.section(voxels, voxels)?;
    if cursor.offset < bytes.len() {
        return Err(Fault::Trailing {
            place: cursor.offset,
        });
    }
    Ok(section.numbers)
}

// Writes values into a store of as many places.
#[tactic(auto, using(crate::proofs::Values::by_place))]
fn write(values: &Numbers<'_>, volume: &mut [Count])
    requires { length volume.old ≡ length (numbers_in values.now.bytes.now) }
    ensures { volume.new ≡ map count_of (numbers_in values.now.bytes.now) }
{
    for (i, voxel) in volume.iter_mut().enumerate() {
        *voxel = Count::from(i64::from(values.number(i)));
    }
}

/// Reads the values of the plan's voxels into a volume store of `plan.voxels()` values, from byte `start` on. Checks 1, 2,
/// 1, 3, 23, by `values_check` of specs/FileChecks, all before it writes; places count from byte 0. Defined by `values_in`
/// of specs/Plans.
#[tactic(auto, using(std::proofs::lemmas::Result::err_from_is_err_and), unfolding(crate::specs::FileChecks::values_check, crate::specs::Plans::values_in))]
pub fn read_values_from(
    plan: &Plan,
    bytes: &[u8],
    start: usize,
    volume: &mut [Count],
) -> Result<(), Fault>
    ensures answer { result_err result ≡ values_check bytes.now start (voxels_of (plan_of plan.now)) (length volume.old) }
    ensures volume { volume.new
        ≡ unless_refused (values_check bytes.now start (voxels_of (plan_of plan.now)) (length volume.old)) (values_in bytes.now start) volume.old }
{
    let values = voxel_values(plan, bytes, start)?;
    let (found, wanted) = (volume.len(), plan.voxels());
    if found != wanted {
        let refusal = Refusal::StoreLength {
            store: Store::Volume,
            found,
            wanted,
        };
        return Err(Fault::from(Placed { refusal, place: 0 }));
    }
    write(&values, volume);
    Ok(())
}

/// Reads the values of the plan's voxels into a volume store of `plan.voxels()` values. Places count from the first of the
/// bytes. Checks 1, 2, 1, 3, 23, by `values_check` of specs/FileChecks, all before it writes. Defined by `values_in` of
/// specs/Plans.
pub fn read_values(plan: &Plan, bytes: &[u8], volume: &mut [Count]) -> Result<(), Fault>
    ensures answer { result_err result ≡ values_check bytes.now 0 (voxels_of (plan_of plan.now)) (length volume.old) }
    ensures volume { volume.new
        ≡ unless_refused (values_check bytes.now 0 (voxels_of (plan_of plan.now)) (length volume.old)) (values_in bytes.now 0) volume.old }
{
    read_values_from(plan, bytes, 0, volume)
}
