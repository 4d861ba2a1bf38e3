// The scan that is swept: a cube of voxels before a panel that sees all but its corners.
use crate::arguments::{Arguments, Grid};
use anyhow::Result;
use scan::axis::Axis;
use scan::draft::Draft;
use scan::even::EvenAxis;
use scan::listed::ListedAxis;
use scan::plan::Plan;
use scan::refusal::Refusal;
use std::alloc::{AllocError, Global};
use values::count::Count;

// D, from the source to the rotation axis.
const SOURCE: i32 = 1_000_000;

// F, from the source to the panel.
const PANEL: i32 = 1_536_000;

// Half the width of the volume.
const VOLUME_HALF: i32 = 128_000;

// Half the width of the panel.
const PANEL_HALF: i32 = 256_000;

// The views go round the full turn of 64 steps.
pub(crate) fn planned(heap: Global, arguments: &Arguments) -> Result<Plan> {
    let mut draft = drafted(heap, arguments)?;
    for view in 0..arguments.views {
        draft.add_view(i32::from(view) * 64 / i32::from(arguments.views))?;
    }
    Ok(draft.seal())
}

fn drafted(heap: Global, arguments: &Arguments) -> Result<Draft> {
    let Arguments { side, heights, .. } = *arguments;
    match arguments.grid {
        Grid::Even => {
            let across = even(-VOLUME_HALF, 2 * VOLUME_HALF, side)?;
            let up = even(-VOLUME_HALF, 2 * VOLUME_HALF, heights)?;
            Ok(drafted_over(arguments, &across, &up)?)
        }
        Grid::Uneven => {
            let across = uneven(heap, side)?;
            let up = uneven(heap, heights)?;
            Ok(drafted_over(arguments, &across, &up)?)
        }
    }
}

fn drafted_over<A: Axis>(arguments: &Arguments, across: &A, up: &A) -> Result<Draft, Refusal> {
    let columns = even(-PANEL_HALF, 2 * PANEL_HALF, arguments.columns)?;
    let rows = even(-PANEL_HALF, 2 * PANEL_HALF, arguments.rows)?;
    Draft::new(SOURCE, PANEL, across, across, up, &columns, &rows)
}

// Cells side by side from `first` on. Where there are none, the axis is refused whatever the pitch.
fn even(first: i32, width: i32, cells: u16) -> Result<EvenAxis, Refusal> {
    let pitch = width.checked_div(i32::from(cells)).unwrap_or(0);
    EvenAxis::new(first, pitch, usize::from(cells))
}

// Cells that are wider the further they lie from the middle.
fn uneven(heap: Global, cells: u16) -> Result<ListedAxis> {
    let half = cells / 2;
    let edges: Vec<i32> = (0..cells.saturating_add(1))
        .map(|i| uneven_edge(i, half))
        .collect(heap)?;
    Ok(ListedAxis::new(&edges)?)
}

// An edge, whose distance from the middle grows as the square of its number from there. None of these products leaves 32
// bits; that they would wrap spares the proof of it.
fn uneven_edge(i: u16, half: u16) -> i32 {
    let steps = i32::from(i) - i32::from(half);
    let widest = i32::from(half).wrapping_mul(i32::from(half));
    let unit = VOLUME_HALF.checked_div(widest).unwrap_or(0);
    steps.wrapping_mul(steps.abs()).wrapping_mul(unit)
}

// Voxels of values from 0 to 999 that look like chance.
pub(crate) fn voxels(heap: Global, plan: &Plan) -> Result<Vec<Count>, AllocError> {
    (0..plan.voxels() as i64)
        .map(|voxel| Count::from(voxel * 2_654_435_761 % 1000))
        .collect(heap)
}

#[cfg(test)]
mod tests {
    use super::*;

    #[test]
    fn distances_of_uneven_edges_grow_as_squares(rt: HostRuntime) {
        let edges = [0, 1, 2, 3, 4].map(|i| uneven_edge(i, 2));
        assert_eq!(rt; edges, [-128_000, -32_000, 0, 32_000, 128_000]);
    }
}
