use crate::outcomes::refused;
use crate::small_plans::small;
use scan::axis::Axis;
use scan::draft::Draft;
use scan::even::EvenAxis;
use scan::landed::Landed;
use scan::listed::ListedAxis;
use scan::plan::Plan;
use scan::refusal::Refusal;
use std::alloc::{AllocError, Global};
use std::test::Fail;

// A draft of two cells along each axis; `last` is the last edge of the columns.
fn draft(source: i32, panel: i32, last: i32) -> Result<Draft, Refusal> {
    let side = ListedAxis::new(&[-100, 0, 100])?;
    let height = EvenAxis::new(-50, 50, 2)?;
    let column = ListedAxis::new(&[-1000, 0, last])?;
    Draft::new(source, panel, &side, &side, &height, &column, &height)
}

// Edges 0, 1, 2, .., so many.
fn edges(heap: Global, many: i32) -> Result<Vec<i32>, AllocError> {
    (0..many).collect(heap)
}

#[test]
fn axes_answer_their_edges_and_the_last_beyond(rt: HostRuntime) -> Result<(), Fail> {
    let listed = ListedAxis::new(&[-7, 0, 4_194_304])?;
    assert_eq!(rt;
        (
            listed.cells(),
            listed.edge(0),
            listed.edge(1),
            listed.edge(9)
        ),
        (2, -7, 0, 4_194_304)
    );
    let even = EvenAxis::new(-6, 4, 3)?;
    assert_eq!(rt;
        (even.cells(), even.edge(0), even.edge(3), even.edge(9)),
        (3, -6, 6, 6)
    );
    Ok(())
}

#[test]
fn axes_have_1_to_512_cells(rt: HostRuntime) -> Result<(), Fail> {
    let heap = rt.alloc();
    assert_eq!(rt; refused(ListedAxis::new(&[0])), Some((2, 0)));
    assert_eq!(rt; ListedAxis::new(&[0, 3])?.cells(), 1);
    let most = ListedAxis::new(&edges(heap, 513)?)?;
    assert_eq!(rt; most.cells(), 512);
    assert_eq!(rt; refused(ListedAxis::new(&edges(heap, 514)?)), Some((2, 0)));
    assert_eq!(rt; refused(EvenAxis::new(0, 1, 0)), Some((2, 0)));
    assert_eq!(rt; EvenAxis::new(0, 1, 1)?.cells(), 1);
    assert_eq!(rt; EvenAxis::new(0, 1, 512)?.cells(), 512);
    assert_eq!(rt; refused(EvenAxis::new(0, 1, 513)), Some((2, 0)));
    Ok(())
}

#[test]
fn edges_lie_in_range(rt: HostRuntime) -> Result<(), Fail> {
    let widest = ListedAxis::new(&[-4_194_304, 0, 4_194_304])?;
    assert_eq!(rt; (widest.edge(0), widest.edge(2)), (-4_194_304, 4_194_304));
    assert_eq!(rt; refused(ListedAxis::new(&[-4_194_305, 0, 0])), Some((5, 0)));
    assert_eq!(rt; refused(ListedAxis::new(&[-7, 0, 4_194_305])), Some((5, 2)));
    assert_eq!(rt; refused(EvenAxis::new(4_194_300, 2, 3)), Some((5, 3)));
    Ok(())
}

#[test]
fn edges_rise(rt: HostRuntime) {
    assert_eq!(rt; refused(ListedAxis::new(&[0, 3, 3])), Some((4, 2)));
    assert_eq!(rt; refused(EvenAxis::new(0, 0, 3)), Some((4, 1)));
}

#[test]
fn the_count_is_checked_before_the_range_and_the_range_before_the_rise(rt: HostRuntime) {
    assert_eq!(rt; refused(ListedAxis::new(&[4_194_305])), Some((2, 0)));
    assert_eq!(rt; refused(ListedAxis::new(&[3, 3, 4_194_305])), Some((5, 2)));
}

#[test]
fn distances_are_limited(rt: HostRuntime) -> Result<(), Fail> {
    assert_eq!(rt; refused(draft(0, 2000, 1000)), Some((6, 0)));
    draft(16_777_216, 33_554_432, 1000)?;
    assert_eq!(rt; refused(draft(16_777_217, 33_554_432, 1000)), Some((6, 0)));
    assert_eq!(rt; refused(draft(16_777_216, 33_554_433, 1000)), Some((6, 1)));
    assert_eq!(rt; refused(draft(1000, 999, 998)), Some((6, 1)));
    draft(1001, 1001, 1000)?;
    Ok(())
}

#[test]
fn the_source_stands_off_the_volume_and_the_columns_reach_less_far_than_the_panel(
    rt: HostRuntime,
) -> Result<(), Fail> {
    assert_eq!(rt; refused(draft(200, 2000, 1000)), Some((7, 0)));
    assert_eq!(rt; refused(draft(201, 2000, 2000)), Some((8, 2)));
    let plan = draft(201, 2000, 1999)?.seal();
    assert_eq!(rt; (plan.voxels(), plan.cells(), plan.views()), (8, 4, 0));
    Ok(())
}

#[test]
fn views_are_numbered_up_to_1024_and_a_refused_one_is_not_added(
    rt: HostRuntime,
) -> Result<(), Fail> {
    let mut draft = draft(500, 2000, 1000)?;
    assert_eq!(rt; refused(draft.add_view(64)), Some((9, 0)));
    assert_eq!(rt; refused(draft.add_view(-1)), Some((9, 0)));
    assert_eq!(rt; draft.views(), 0);
    // A `for`, since a chain could not stop at a refusal more plainly.
    for _ in 0..1023 {
        draft.add_view(0)?;
    }
    assert_eq!(rt; draft.add_view(63)?, 1023);
    assert_eq!(rt; refused(draft.add_view(0)), Some((21, 0)));
    assert_eq!(rt; refused(draft.add_view(64)), Some((9, 0)));
    assert_eq!(rt; draft.views(), 1024);
    assert_eq!(rt; draft.seal().views(), 1024);
    Ok(())
}

#[test]
fn a_view_answers_where_edges_land(rt: HostRuntime) -> Result<(), Fail> {
    let mut draft = draft(500, 2000, 1000)?;
    draft.add_view(0)?;
    let plan = draft.seal();
    let view = plan.view(0).ok_or("no view")?;
    assert_eq!(rt;
        (
            view.cross_edge(0, 0),
            view.height_edge(0, 0),
            view.column_edge(0),
            view.row_edge(0, 0),
        ),
        (-91, -45, -250, -13)
    );
    assert!(rt; plan.view(1).is_none());
    Ok(())
}

// Thin cells before, about and behind the rotation axis.
fn thin() -> Result<Plan, Refusal> {
    let x = ListedAxis::new(&[-6, -3, -1, 1, 3, 6])?;
    let y = ListedAxis::new(&[-600, -400, 400, 600])?;
    let height = ListedAxis::new(&[-3, -1, 1, 3])?;
    let column = ListedAxis::new(&[-5, -3, -1, 1, 3, 5])?;
    let mut draft = Draft::new(1500, 3000, &x, &y, &height, &column, &height)?;
    draft.add_view(0)?;
    draft.add_view(32)?;
    Ok(draft.seal())
}

#[test]
fn halves_land_farther_from_zero(rt: HostRuntime) -> Result<(), Fail> {
    let plan = thin()?;
    let ahead = plan.view(0).ok_or("no view")?;
    let behind = plan.view(1).ok_or("no view")?;
    let edges = [0, 1, 2, 3, 4, 5];
    assert_eq!(rt;
        edges.map(|i| ahead.cross_edge(2, i)),
        [-9, -5, -2, 2, 5, 9]
    );
    assert_eq!(rt;
        edges.map(|i| behind.cross_edge(2, i)),
        [-5, -2, -1, 1, 2, 5]
    );
    assert_eq!(rt; edges.map(|k| ahead.column_edge(k)), [-3, -2, -1, 1, 2, 3]);
    assert_eq!(rt; edges.map(|k| behind.column_edge(k)), [3, 2, 1, -1, -2, -3]);
    let edges = [0, 1, 2, 3];
    assert_eq!(rt; edges.map(|l| ahead.height_edge(2, l)), [-5, -2, 2, 5]);
    assert_eq!(rt; edges.map(|l| behind.height_edge(0, l)), [-5, -2, 2, 5]);
    assert_eq!(rt; edges.map(|m| ahead.row_edge(0, m)), [-2, -1, 1, 2]);
    assert_eq!(rt; edges.map(|m| behind.row_edge(0, m)), [-2, -1, 1, 2]);
    Ok(())
}

// The table of docs/ROWS-OF-CALLS.md.
#[test]
fn the_first_panel_cell_starts_where_the_formulas_say(rt: HostRuntime) -> Result<(), Fail> {
    let plan = small(&[0, 8, 16, 24, 32])?;
    let cells = [
        (-100, 0, -50, 50),
        (-129, 0, -48, 48),
        (-100, 0, -50, 50),
        (157, 0, -53, 53),
        (100, 0, -50, 50),
    ];
    for (number, cell) in cells.iter().enumerate() {
        let view = plan.view(number).ok_or("no view")?;
        let across = (view.column_edge(0), view.column_edge(1));
        let down = (view.row_edge(0, 0), view.row_edge(0, 1));
        assert_eq!(rt; (across.0, across.1, down.0, down.1), *cell);
    }
    Ok(())
}
