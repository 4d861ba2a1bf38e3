// Small plans, and values for their stores, for the trial runs.
use scan::axis::Axis;
use scan::draft::Draft;
use scan::listed::ListedAxis;
use scan::plan::Plan;
use scan::refusal::Refusal;
use values::count::Count;
use values::pair::Pair;

// The plan of a draft that is seen from some steps.
pub(crate) fn viewed(mut draft: Draft, steps: &[i32]) -> Result<Plan, Refusal> {
    for &step in steps {
        draft.add_view(step)?;
    }
    Ok(draft.seal())
}

// Two by two voxels, one row and two columns.
pub(crate) fn small(steps: &[i32]) -> Result<Plan, Refusal> {
    let side = ListedAxis::new(&[-100, 0, 100])?;
    let z = ListedAxis::new(&[-50, 50])?;
    let column = ListedAxis::new(&[-200, 0, 200])?;
    let row = ListedAxis::new(&[-100, 100])?;
    let draft = Draft::new(1000, 2000, &side, &side, &z, &column, &row)?;
    viewed(draft, steps)
}

// Three by two by two voxels of uneven widths, and two rows of some columns.
pub(crate) fn uneven_before<C: Axis>(column: &C, steps: &[i32]) -> Result<Plan, Refusal> {
    let x = ListedAxis::new(&[-100, -20, 50, 100])?;
    let y = ListedAxis::new(&[-90, 0, 30])?;
    let z = ListedAxis::new(&[-50, 10, 50])?;
    let row = ListedAxis::new(&[-100, 0, 100])?;
    let draft = Draft::new(1000, 2000, &x, &y, &z, column, &row)?;
    viewed(draft, steps)
}

// The same voxels and rows, with three columns of uneven widths, seen from steps 5 and 20.
pub(crate) fn uneven() -> Result<Plan, Refusal> {
    let column = ListedAxis::new(&[-200, -50, 60, 200])?;
    uneven_before(&column, &[5, 20])
}

pub(crate) fn pair(first: i64, second: i64) -> Pair {
    Pair {
        first: Count::from(first),
        second: Count::from(second),
    }
}

// A number, and twice itself plus 1 beside it.
pub(crate) fn beside(number: i64) -> Pair {
    pair(number, number.wrapping_mul(2).wrapping_add(1))
}

pub(crate) fn parts(pair: Pair) -> (i64, i64) {
    (i64::from(pair.first), i64::from(pair.second))
}
