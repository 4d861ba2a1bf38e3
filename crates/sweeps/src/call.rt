ghost use Rattle.std.specs.Prelude.{◌≡◌};
ghost use Rattle.scan.specs.Verdicts.{Verdict};
ghost use Rattle.scan.specs.Axes.{cells_of};
ghost use Rattle.scan.specs.Meanings.{plan_of};
ghost use Rattle.scan.specs.Scans.{edges_along, places_of};
ghost use Rattle.sweeps.specs.Checks.{view_number_check, store_check, bounds_check, box_check, sweep_check, transfer_check, scale_check, trim_check, row_check};
ghost use Rattle.sweeps.specs.Systems.{system_of};
ghost use Rattle.sweeps.specs.Passes.{CellsOf};

use calls::voxel_box::{Bounds, VoxelBox};
use scan::landed::Landed;
use scan::plan::Plan;
use scan::refusal::{Refusal, Store};
use scan::scan_axis::ScanAxis;
use scan::view::View;

// A view of the plan, and where its cells stand in a store of cells.
#[derive(Clone, Copy)]
pub(crate) struct ViewCells<'a> {
    pub(crate) view: View<'a>,
    pub(crate) start: usize,
    pub(crate) count: usize,
}

// In each call all checks stand before the first write, so a refusal alters nothing.

// Refuses a number of no view (22).
#[tactic(auto, using(std::proofs::lemmas::Result::err_from_is_err_and))]
fn cells_of_view(plan: &Plan, view: usize) -> Result<ViewCells<'_>, Refusal>
    ensures { Verdict (view_number_check (system_of (plan_of plan.now)) view)
        (λ w. CellsOf (plan_of plan.now) view (places_of (plan_of plan.now)) w.start w.count (⟦<View<'static> as Landed>⟧.landing w.view)) result }
{
    let views = plan.views();
    let landed = plan.view(view).ok_or(Refusal::NoView { view, views })?;
    let count = plan.cells();
    Ok(ViewCells {
        view: landed,
        start: view * count,
        count,
    })
}

// Refuses a store of another length than the plan asks for (23).
fn check_store(store: Store, found: usize, wanted: usize) -> Result<(), Refusal>
    ensures { Verdict (store_check store found wanted) (λ _. Unit {0}) result }
{
    if found == wanted {
        Ok(())
    } else {
        Err(Refusal::StoreLength {
            store,
            found,
            wanted,
        })
    }
}

// Refuses bounds that are not in order or go past the cells of their axis (24).
fn check_bounds(plan: &Plan, axis: ScanAxis, bounds: Bounds) -> Result<(), Refusal>
    ensures { Verdict (bounds_check axis bounds (cells_of (edges_along (plan_of plan.now) axis))) (λ _. Unit {0}) result }
{
    let cells = plan.cells_along(axis);
    if bounds.fit(cells) {
        Ok(())
    } else {
        Err(Refusal::BoxBounds {
            axis,
            lower: bounds.lower,
            upper: bounds.upper,
            cells,
        })
    }
}

// Refuses a box whose bounds along x, or y, or z are so (24).
fn check_box(plan: &Plan, within: VoxelBox) -> Result<(), Refusal>
    ensures { Verdict (box_check (system_of (plan_of plan.now)) within) (λ _. Unit {0}) result }
{
    check_bounds(plan, ScanAxis::X, within.x)?;
    check_bounds(plan, ScanAxis::Y, within.y)?;
    check_bounds(plan, ScanAxis::Z, within.z)
}

// The checks of forward and back.
#[tactic(auto, using(std::proofs::lemmas::Result::err_from_is_err_and), unfolding(crate::specs::Checks::sweep_check))]
pub(crate) fn checked_sweep(
    plan: &Plan,
    view: usize,
    volume: usize,
    working: usize,
) -> Result<ViewCells<'_>, Refusal>
    ensures { Verdict (sweep_check (system_of (plan_of plan.now)) view volume working)
        (λ w. CellsOf (plan_of plan.now) view working w.start w.count (⟦<View<'static> as Landed>⟧.landing w.view)) result }
{
    let cells = cells_of_view(plan, view)?;
    check_store(Store::Volume, volume, plan.voxels())?;
    check_store(Store::Working, working, plan.places())?;
    Ok(cells)
}

// The checks of take and give.
#[tactic(auto, using(std::proofs::lemmas::Result::err_from_is_err_and), unfolding(crate::specs::Checks::transfer_check))]
pub(crate) fn checked_transfer(
    plan: &Plan,
    view: usize,
    measured: usize,
    working: usize,
) -> Result<ViewCells<'_>, Refusal>
    ensures { Verdict (transfer_check (system_of (plan_of plan.now)) view measured working)
        (λ w. (measured ≡ working) × CellsOf (plan_of plan.now) view working w.start w.count (⟦<View<'static> as Landed>⟧.landing w.view)) result }
{
    let cells = cells_of_view(plan, view)?;
    check_store(Store::Measured, measured, plan.places())?;
    check_store(Store::Working, working, plan.places())?;
    Ok(cells)
}

// The checks of scale.
#[tactic(auto, using(std::proofs::lemmas::Result::err_from_is_err_and), unfolding(crate::specs::Checks::scale_check))]
pub(crate) fn checked_scale(
    plan: &Plan,
    view: usize,
    working: usize,
) -> Result<ViewCells<'_>, Refusal>
    ensures { Verdict (scale_check (system_of (plan_of plan.now)) view working)
        (λ w. CellsOf (plan_of plan.now) view working w.start w.count (⟦<View<'static> as Landed>⟧.landing w.view)) result }
{
    let cells = cells_of_view(plan, view)?;
    check_store(Store::Working, working, plan.places())?;
    Ok(cells)
}

// The checks of trim.
#[tactic(auto, using(std::proofs::lemmas::Result::err_from_is_err_and), unfolding(crate::specs::Checks::trim_check))]
pub(crate) fn checked_trim(plan: &Plan, within: VoxelBox, volume: usize) -> Result<(), Refusal>
    ensures { Verdict (trim_check (system_of (plan_of plan.now)) within volume) (λ _. Unit {0}) result }
{
    check_store(Store::Volume, volume, plan.voxels())?;
    check_box(plan, within)
}

// The checks of a row.
#[tactic(auto, using(std::proofs::lemmas::Result::err_from_is_err_and), unfolding(crate::specs::Checks::row_check))]
pub(crate) fn checked_stores(
    plan: &Plan,
    volume: usize,
    measured: usize,
    working: usize,
) -> Result<(), Refusal>
    ensures { Verdict (row_check (system_of (plan_of plan.now)) volume measured working) (λ _. Unit {0}) result }
{
    check_store(Store::Volume, volume, plan.voxels())?;
    check_store(Store::Measured, measured, plan.places())?;
    check_store(Store::Working, working, plan.places())
}
