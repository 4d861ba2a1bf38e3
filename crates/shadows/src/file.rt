// The shadow of a file.
ghost use Rattle.std.specs.Prelude.{◌≡◌, ◌≤◌, length, take, map, OnOk, OnErr};
ghost use Rattle.scan.specs.Meanings.{plan_of};
ghost use Rattle.scan.specs.Scans.{voxels_of, places_of};
ghost use Rattle.scan.specs.Verdicts.{Verdict};
ghost use Rattle.values.specs.Counts.{count_of};
ghost use Rattle.calls.specs.Stores.{built};
ghost use Rattle.planfile.specs.Numbers.{numbers_in};
ghost use Rattle.planfile.specs.Sections.{start};
ghost use Rattle.planfile.specs.Plans.{scan_in, values_in};
ghost use Rattle.shadows.specs.Shadows.{size_check, shadow_check, cells_seen, voxels_hit, ShadowOf};

use crate::every_view::{backproject, project};
use crate::refusal::Refusal;
use crate::shadow::{MOST_PLACES, Shadow};
use arrayvec::ArrayVec;
use planfile::numbers::Numbers;
use planfile::plan::read_plan;
use planfile::voxels::voxel_values;
use scan::plan::Plan;
use scan::scan_axis::ScanAxis;
use sweeps::tally::tally;
use values::count::Count;
use values::reach::Reach;
use values::value::Value;

// How many bytes the longest file has that has a shadow, four to a number: 9 counts, 2 distances, the 524 edges and 4,096
// values of 512 by 8 by 1 voxels, 1,024 directions of 2 numbers each, 1,024 steps, and the 7 edges of 4 rows and 1 column.
const LONGEST_FILE: usize = 30_840;

/// How many bytes of a file decide what is answered to it: one more than the longest file has that has a shadow. Who reads no
/// more than these need not wait for the end of a file that has none.
pub const FRONT: usize = LONGEST_FILE + 1;

// Refuses a plan that is too large (10), whose voxels would begin at a place.
fn check_size(plan: &Plan, place: usize) -> Result<(), Refusal>
    ensures { Verdict (size_check (plan_of plan.now) place) (λ _. (voxels_of (plan_of plan.now) ≤ 4096) × (places_of (plan_of plan.now) ≤ 4096)) result }
{
    let (voxels, cells) = (plan.voxels(), plan.places());
    if MOST_PLACES < voxels || MOST_PLACES < cells {
        return Err(Refusal::TooLarge {
            voxels,
            cells,
            place,
        });
    }
    Ok(())
}

// Makes a store hold so many times a value.
fn fill<V: Value + Default + Drop>(store: &mut ArrayVec<V, MOST_PLACES>, value: V, n: usize)
    requires { n ≤ 4096 }
    ensures { store.new.items ≡ built n (λ _. value) }
{
    store.clear();
    for _ in 0..n {
        store.push(value);
    }
}

// Makes a store hold so many zeros.
fn zeros<V: Value + Default + Drop>(store: &mut ArrayVec<V, MOST_PLACES>, n: usize)
    requires { n ≤ 4096 }
    ensures { store.new.items ≡ built n (λ _. V.Value.ops.zero) }
{
    fill(store, V::ZERO, n);
}

// Makes a store hold numbers as Counts.
fn keep(volume: &mut ArrayVec<Count, MOST_PLACES>, values: &Numbers<'_>)
    requires { length (numbers_in values.now.bytes.now) ≤ 4096 }
    ensures { volume.new.items ≡ map count_of (numbers_in values.now.bytes.now) }
{
    volume.clear();
    for i in 0..values.len() {
        volume.push(Count::from(i64::from(values.number(i))));
    }
}

// Makes a store hold the cells of all views.
fn see(plan: &Plan, volume: &[Count], cells: &mut ArrayVec<Count, MOST_PLACES>)
    requires volume { length volume.now ≡ voxels_of (plan_of plan.now) }
    requires few { places_of (plan_of plan.now) ≤ 4096 }
    ensures { cells.new.items ≡ cells_seen (plan_of plan.now) volume.now }
{
    zeros(cells, plan.places());
    project(plan, Count::from(1), volume, cells);
}

// How many voxels are hit.
fn voxels_hit(plan: &Plan) -> usize
    requires voxels { voxels_of (plan_of plan.now) ≤ 4096 }
    requires places { places_of (plan_of plan.now) ≤ 4096 }
    ensures { result ≡ voxels_hit (plan_of plan.now) }
{
    let yes = Reach { yes: true };
    let mut cells = ArrayVec::new();
    fill(&mut cells, yes, plan.places());
    let mut volume = ArrayVec::new();
    zeros(&mut volume, plan.voxels());
    backproject(plan, yes, &mut volume, &cells);
    tally(&volume)
}

// Makes a shadow that of a plan and its voxels.
fn make(shadow: &mut Shadow, plan: &Plan, values: &Numbers<'_>)
    requires values { length (numbers_in values.now.bytes.now) ≡ voxels_of (plan_of plan.now) }
    requires voxels { voxels_of (plan_of plan.now) ≤ 4096 }
    requires places { places_of (plan_of plan.now) ≤ 4096 }
    ensures { ShadowOf (plan_of plan.now) (map count_of (numbers_in values.now.bytes.now)) shadow.new }
{
    shadow.views = plan.views();
    shadow.rows = plan.cells_along(ScanAxis::Row);
    shadow.columns = plan.cells_along(ScanAxis::Column);
    keep(&mut shadow.volume, values);
    see(plan, &shadow.volume, &mut shadow.cells);
    shadow.hit = voxels_hit(plan);
}

/// Makes a shadow that of the plan and the voxels that a file holds. Checks the plan as `read_plan` does, 10, and the section
/// of the voxels as `voxel_values` does, all before it writes; a refusal leaves the shadow. Defined by `shadow_check` and
/// `ShadowOf` of specs/Shadows.
#[tactic(auto, using(std::proofs::lemmas::Result::err_from_is_err_and), unfolding(crate::specs::Shadows::shadow_check))]
pub fn shadow_of(bytes: &[u8], shadow: &mut Shadow) -> Result<(), Refusal>
    ensures answer { let b = bytes.now in
        Verdict (shadow_check b) (λ _. ShadowOf (scan_in b) (values_in b (start b 8)) shadow.new) result }
    // A refusal leaves the shadow.
    ensures kept { OnErr result (shadow.new ≡ shadow.old) }
    // The front of the bytes decides: the rest of longer ones makes no difference.
    ensures front { shadow_check bytes.now ≡ shadow_check (take 30841 bytes.now) }
    // A shadow is made of no more bytes than the longest file has.
    ensures longest { OnOk result (length bytes.now ≤ 30840) }
{
    let (plan, rest) = read_plan(bytes)?;
    let start = bytes.len() - rest.len();
    check_size(&plan, start)?;
    let values = voxel_values(&plan, bytes, start)?;
    make(shadow, &plan, &values);
    Ok(())
}
