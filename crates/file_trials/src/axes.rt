use planfile::bytes_axis::BytesAxis;
use planfile::numbers::Numbers;
use scan::axis::Axis;
use scan::draft::Draft;
use scan::even::EvenAxis;
use scan::refusal::Refusal;
use scan::scan_axis::ScanAxis;
use std::test::Fail;

// -100, 0, 100.
const EDGES: [u8; 12] = [156, 255, 255, 255, 0, 0, 0, 0, 100, 0, 0, 0];

fn told(axis: Result<BytesAxis<'_>, Refusal>) -> Option<(u8, usize)> {
    axis.err()
        .map(|refusal| (refusal.number(), refusal.place()))
}

#[test]
fn numbers_are_four_bytes_each(rt: HostRuntime) {
    // A number that is not whole is left out.
    let numbers = Numbers {
        bytes: &EDGES[..11],
    };
    assert_eq!(rt; numbers.len(), 2);
    assert_eq!(rt;
        (numbers.number(0), numbers.number(1), numbers.number(2)),
        (-100, 0, 0)
    );
}

#[test]
fn an_axis_over_bytes_answers_its_edges(rt: HostRuntime) -> Result<(), Fail> {
    let axis = BytesAxis::new(Numbers { bytes: &EDGES })?;
    assert_eq!(rt; axis.cells(), 2);
    assert_eq!(rt;
        (axis.edge(0), axis.edge(1), axis.edge(2), axis.edge(9)),
        (-100, 0, 100, 100)
    );
    Ok(())
}

#[test]
fn a_draft_takes_axes_of_unlike_kinds(rt: HostRuntime) -> Result<(), Fail> {
    let over = BytesAxis::new(Numbers { bytes: &EDGES })?;
    let even = EvenAxis::new(-50, 20, 5)?;
    let mut draft = Draft::new(1000, 2000, &over, &even, &over, &even, &over)?;
    draft.add_view(0)?;
    let plan = draft.seal();
    assert_eq!(rt;
        (
            plan.cells_along(ScanAxis::X),
            plan.cells_along(ScanAxis::Y),
            plan.cells_along(ScanAxis::Row)
        ),
        (2, 5, 2)
    );
    Ok(())
}

#[test]
fn edges_over_bytes_are_checked(rt: HostRuntime) {
    assert_eq!(rt;
        told(BytesAxis::new(Numbers { bytes: &EDGES[..7] })),
        Some((2, 0))
    );
    // 0, 0, and then -100, 0, 16,777,316.
    assert_eq!(rt;
        told(BytesAxis::new(Numbers {
            bytes: &[0, 0, 0, 0, 0, 0, 0, 0]
        })),
        Some((4, 1))
    );
    let mut far = EDGES;
    far[11] = 1;
    assert_eq!(rt; told(BytesAxis::new(Numbers { bytes: &far })), Some((5, 2)));
}
