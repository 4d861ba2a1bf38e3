//! A small plan, projected forward and back, one iteration run as a row of calls, and views at unequal angles.
#![tactic(auto)]

use anyhow::{Context, Result};
use calls::call::Call;
use geometry::heading::Heading;
use scan::draft::Draft;
use scan::even::EvenAxis;
use scan::listed::ListedAxis;
use scan::plan::Plan;
use scan::refusal::Refusal;
use scan::scan_axis::ScanAxis;
use std::alloc::Global;
use std::io;
use sweeps::backprojection::back;
use sweeps::projection::forward;
use sweeps::row::run;
use sweeps::tally::tally;
use values::count::Count;
use values::reach::Reach;
use values::value::Value;

// Two by two voxels of 100 units, 100 high, and a panel of one row and two columns.
#[derive(Drop)]
struct Axes {
    across: EvenAxis,
    height: EvenAxis,
    column: ListedAxis,
    row: ListedAxis,
}

fn small_axes() -> Result<Axes, Refusal> {
    Ok(Axes {
        across: EvenAxis::new(-100, 100, 2)?,
        height: EvenAxis::new(-50, 100, 1)?,
        column: ListedAxis::new(&[-200, 0, 200])?,
        row: ListedAxis::new(&[-100, 100])?,
    })
}

fn drafted() -> Result<Draft, Refusal> {
    let Axes {
        across,
        height,
        column,
        row,
    } = small_axes()?;
    Draft::new(1000, 2000, &across, &across, &height, &column, &row)
}

// A draft whose steps are places in a list of directions.
fn turned(directions: &[Heading]) -> Result<Draft, Refusal> {
    let Axes {
        across,
        height,
        column,
        row,
    } = small_axes()?;
    Draft::with_directions(
        1000, 2000, &across, &across, &height, &column, &row, directions,
    )
}

// Seen along y, and after a quarter turn along x.
fn planned() -> Result<Plan, Refusal> {
    let mut draft = drafted()?;
    draft.add_view(0)?;
    draft.add_view(16)?;
    Ok(draft.seal())
}

// Seen at 0, 11.25 and 30 degrees: c and s are 16384 times the cosine and the sine, to the nearest whole number.
fn planned_at_angles() -> Result<Plan, Refusal> {
    let mut draft = turned(&[
        Heading { c: 16_384, s: 0 },
        Heading {
            c: 16_069,
            s: 3_196,
        },
        Heading {
            c: 14_189,
            s: 8_192,
        },
    ])?;
    for step in 0..3 {
        draft.add_view(step)?;
    }
    Ok(draft.seal())
}

// The shadow of voxels that are all 1, in every view.
fn shadow(heap: Global, plan: &Plan) -> Result<Vec<Count>> {
    let volume = vec![in heap; Count::from(1); plan.voxels()]?;
    let mut working = vec![in heap; Count::ZERO; plan.places()]?;
    // By number, since the number of the view is what each call takes.
    for view in 0..plan.views() {
        forward(plan, view, Count::from(1), &volume, &mut working)?;
    }
    Ok(working)
}

// One Landweber iteration from an image of twos: the measured shadow less the image's own is projected back. Answers the
// image, and how many calls of the row were refused.
fn iterated(heap: Global, plan: &Plan, measured: &mut [Count]) -> Result<(Vec<Count>, usize)> {
    let (one, less) = (Count::from(1), Count::from(-1));
    let mut row = Vec::new(heap);
    for view in 0..plan.views() {
        row.push(Call::Forward { view, factor: less })?;
        row.push(Call::Take { view, factor: one })?;
    }
    for view in 0..plan.views() {
        row.push(Call::Back { view, factor: one })?;
    }
    let mut image = vec![in heap; Count::from(2); plan.voxels()]?;
    let mut working = vec![in heap; Count::ZERO; plan.places()]?;
    let refused = run(plan, &row, &mut image, measured, &mut working)?;
    Ok((image, refused))
}

// How many voxels the first column of some view reaches.
fn hits(heap: Global, plan: &Plan) -> Result<usize> {
    let yes = Reach { yes: true };
    let columns = plan.cells_along(ScanAxis::Column);
    let working: Vec<Reach> = (0..plan.places())
        .map(|place| Reach {
            yes: place % columns == 0,
        })
        .collect(heap)?;
    let mut volume = vec![in heap; Reach::ZERO; plan.voxels()]?;
    // By number, since the number of the view is what each call takes.
    for view in 0..plan.views() {
        back(plan, view, yes, &mut volume, &working)?;
    }
    Ok(tally(&volume))
}

// A plan, its shadow, how many voxels are hit, and the image that one iteration makes of the shadow.
#[derive(Drop)]
struct Outcome {
    plan: Plan,
    cells: Vec<Count>,
    hit: usize,
    image: Vec<Count>,
    refused: usize,
}

fn project(heap: Global) -> Result<Outcome> {
    let plan = planned().context("The plan")?;
    let mut cells = shadow(heap, &plan).context("Forward")?;
    let hit = hits(heap, &plan).context("Back")?;
    let (image, refused) = iterated(heap, &plan, &mut cells).context("An iteration")?;
    Ok(Outcome {
        plan,
        cells,
        hit,
        image,
        refused,
    })
}

// The number of a view at a step. A step past the last is refused, and the draft stays as it was.
fn numbered(step: i32) -> Result<usize> {
    let mut draft = drafted().context("The draft")?;
    draft
        .add_view(step)
        .context("A view at a step past the last")
}

fn print_cells(rt: &impl Print, plan: &Plan, cells: &[Count]) -> io::Result<()> {
    for (view, panel) in cells.chunks(plan.cells()).enumerate() {
        print_panel(rt, plan, view, panel)?;
    }
    Ok(())
}

fn print_panel(rt: &impl Print, plan: &Plan, view: usize, panel: &[Count]) -> io::Result<()> {
    for (row, cells) in panel.chunks(plan.cells_along(ScanAxis::Column)).enumerate() {
        print_row(rt, view, row, cells)?;
    }
    Ok(())
}

fn print_row(rt: &impl Print, view: usize, row: usize, cells: &[Count]) -> io::Result<()> {
    for (column, cell) in cells.iter().enumerate() {
        println!(rt; "{view} {row} {column} {cell}")?;
    }
    Ok(())
}

fn print_shadow(rt: &impl Print, plan: &Plan, cells: &[Count]) -> io::Result<()> {
    let views = plan.views();
    let rows = plan.cells_along(ScanAxis::Row);
    let columns = plan.cells_along(ScanAxis::Column);
    println!(rt; "views {views} rows {rows} columns {columns}")?;
    print_cells(rt, plan, cells)
}

// What is told of a list of directions of which one does not lie near the circle.
fn print_refused(rt: &impl Print, refusal: Refusal) -> io::Result<()> {
    match refusal {
        Refusal::OffCircle { direction, heading } => {
            let Heading { c, s } = heading;
            println!(rt; "Direction {direction} of a list, c {c} and s {s}: {refusal}.")
        }
        _ => println!(rt; "A list of directions: {refusal}."),
    }
}

fn print_at_angles(rt: &impl Print, heap: Global) -> Result<()> {
    if let Err(refusal) = turned(&[Heading { c: 16_384, s: 0 }, Heading { c: 16_385, s: 0 }]) {
        print_refused(rt, refusal)?;
    }
    println!(rt;
        "Views at 0, 11.25 and 30 degrees, from a list of three directions. Forward from ones as Count:"
    )?;
    let plan = planned_at_angles().context("The plan of three angles")?;
    let cells = shadow(heap, &plan).context("Forward")?;
    print_shadow(rt, &plan, &cells)?;
    Ok(())
}

fn print_outcome(rt: &impl Print, outcome: &Outcome) -> io::Result<()> {
    print_shadow(rt, &outcome.plan, &outcome.cells)?;
    println!(rt; "hit {}", outcome.hit)?;
    print!(rt; "image")?;
    for voxel in &outcome.image {
        print!(rt; " {voxel}")?;
    }
    println!(rt; "\nrefused {}", outcome.refused)
}

fn main(rt: HostRuntime) -> Result<()> {
    println!(rt;
        "Four voxels of 100 units, the source 1000 from the rotation axis, the panel 2000 from the source."
    )?;
    let step = 64;
    match numbered(step) {
        Ok(view) => println!(rt; "A view at step {step}: number {view}.")?,
        Err(error) => println!(rt; "{error:#}.")?,
    }
    println!(rt;
        "Views at steps 0 and 16: sealed. Forward from ones as Count, back from the first column as Reach, and one Landweber iteration from twos:"
    )?;
    let outcome = project(rt.alloc())?;
    print_outcome(&rt, &outcome)?;
    print_at_angles(&rt, rt.alloc())?;
    Ok(())
}
