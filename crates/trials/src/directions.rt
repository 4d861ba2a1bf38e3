// Plans with a list of directions. The figures are those of tools/oracle.txt.
use crate::outcomes::{refused, told};
use crate::rows_of_calls::{
    MEASURED, VOLUME, WORKING, alike, outcome, sides_of_first, six, stores_of, with_refused,
};
use crate::small_plans::{beside, pair, small, viewed};
use calls::call::Call;
use geometry::direction::SlabAxis;
use geometry::heading::Heading;
use scan::draft::Draft;
use scan::landed::Landed;
use scan::listed::ListedAxis;
use scan::plan::Plan;
use scan::refusal::Refusal;
use std::test::Fail;
use sweeps::backprojection::back;
use sweeps::projection::forward;
use values::count::Count;
use values::reach::Reach;
use values::value::Value;

const AHEAD: Heading = Heading { c: 16_384, s: 0 };

// One that is not accepted.
const OFF: Heading = Heading { c: 16_385, s: 0 };

// At 0, 11.25 and 30 degrees.
const THREE: [Heading; 3] = [
    AHEAD,
    Heading { c: 16_069, s: 3196 },
    Heading { c: 14_189, s: 8192 },
];

// Four ties, two beside a tie, and two as far from a quarter as its a allows.
const EIGHT: [(i32, i32); 8] = [
    (11_585, 11_585),
    (-11_585, 11_585),
    (-11_585, -11_585),
    (11_585, -11_585),
    (11_586, 11_584),
    (11_584, 11_586),
    (16_384, 181),
    (181, -16_384),
];

fn heading((c, s): (i32, i32)) -> Heading {
    Heading { c, s }
}

// A draft of the small plan with a list, but for its distances and its last column edge.
fn draft(source: i32, panel: i32, last: i32, list: &[Heading]) -> Result<Draft, Refusal> {
    let side = ListedAxis::new(&[-100, 0, 100])?;
    let z = ListedAxis::new(&[-50, 50])?;
    let column = ListedAxis::new(&[-200, 0, last])?;
    let row = ListedAxis::new(&[-100, 100])?;
    Draft::with_directions(source, panel, &side, &side, &z, &column, &row, list)
}

// The small plan with a list.
fn listed(list: &[Heading], steps: &[i32]) -> Result<Plan, Refusal> {
    viewed(draft(1000, 2000, 200, list)?, steps)
}

// The uneven plan with a list.
fn uneven(list: &[Heading], steps: &[i32]) -> Result<Plan, Refusal> {
    let x = ListedAxis::new(&[-100, -20, 50, 100])?;
    let y = ListedAxis::new(&[-90, 0, 30])?;
    let z = ListedAxis::new(&[-50, 10, 50])?;
    let column = ListedAxis::new(&[-200, -50, 60, 200])?;
    let row = ListedAxis::new(&[-100, 0, 100])?;
    let draft = Draft::with_directions(1000, 2000, &x, &y, &z, &column, &row, list)?;
    viewed(draft, steps)
}

// The uneven plan with a list at 71 and 20 degrees, seen from the second and then from the first.
fn turned() -> Result<Plan, Refusal> {
    uneven(&[(5334, 15_491), (15_396, 5604)].map(heading), &[1, 0])
}

#[test]
fn edges_land_by_a_list(rt: HostRuntime) -> Result<(), Fail> {
    let plan = listed(&THREE, &[0, 1, 2])?;
    let landed = [
        ([-105, 0, 105], [-100, 0, 100]),
        ([-95, 10, 116], [-100, 0, 104]),
        ([-75, 31, 137], [-109, 0, 123]),
    ];
    for (number, (across, columns)) in landed.iter().enumerate() {
        let view = plan.view(number).ok_or("no view")?;
        assert_eq!(rt; [0, 1, 2].map(|i| view.cross_edge(1, i)), *across);
        assert_eq!(rt; [0, 1].map(|l| view.height_edge(1, l)), [-53, 53]);
        assert_eq!(rt; [0, 1, 2].map(|k| view.column_edge(k)), *columns);
    }
    Ok(())
}

#[test]
fn views_of_a_list_are_swept(rt: HostRuntime) -> Result<(), Fail> {
    let plan = listed(&THREE, &[0, 1, 2])?;
    let one = Count::from(1);
    let mut working = [Count::ZERO; 6];
    let backs = [
        [9120, 9120, 10000, 10000],
        [8736, 9120, 10520, 9588],
        [7708, 8836, 10512, 9384],
    ];
    for (view, expected) in backs.iter().enumerate() {
        forward(&plan, view, one, &[one; 4], &mut working)?;
        let mut volume = [Count::ZERO; 4];
        back(&plan, view, one, &mut volume, &[one; 6])?;
        assert_eq!(rt; volume.map(i64::from), *expected);
    }
    let cells = [19120, 19120, 19100, 18864, 17596, 18844];
    assert_eq!(rt; working.map(i64::from), cells);
    Ok(())
}

// The list's last direction twice, and the three in another order.
#[test]
fn directions_may_repeat_and_steps_come_in_any_order(rt: HostRuntime) -> Result<(), Fail> {
    let one = Count::from(1);
    let twice = listed(&[THREE[2], THREE[2]], &[0, 1])?;
    let mut working = [Count::ZERO; 4];
    forward(&twice, 0, one, &[one; 4], &mut working)?;
    forward(&twice, 1, one, &[one; 4], &mut working)?;
    assert_eq!(rt; working.map(i64::from), [17596, 18844, 17596, 18844]);
    let plan = listed(&THREE, &[2, 0, 1])?;
    let mut working = [Count::ZERO; 6];
    for view in 0..3 {
        forward(&plan, view, one, &[one; 4], &mut working)?;
    }
    let cells = [17596, 18844, 19120, 19120, 19100, 18864];
    assert_eq!(rt; working.map(i64::from), cells);
    Ok(())
}

#[test]
fn slabs_lie_along_y_at_ties_and_s_goes_the_way_of_a(rt: HostRuntime) -> Result<(), Fail> {
    let plan = uneven(&EIGHT.map(heading), &[0, 1, 2, 3, 4, 5, 6, 7])?;
    let views = [
        (SlabAxis::Y, [-129, -34, 44, 157]),
        (SlabAxis::Y, [157, 36, -41, -129]),
        (SlabAxis::Y, [129, 34, -44, -157]),
        (SlabAxis::Y, [-157, -36, 41, 129]),
        (SlabAxis::Y, [-129, -34, 44, 157]),
        (SlabAxis::X, [-157, -36, 41, 129]),
        (SlabAxis::Y, [-100, -25, 30, 100]),
        (SlabAxis::X, [100, 25, -30, -100]),
    ];
    for (number, (slabs, columns)) in views.iter().enumerate() {
        let view = plan.view(number).ok_or("no view")?;
        assert_eq!(rt; view.along(), *slabs);
        assert_eq!(rt; [0, 1, 2, 3].map(|k| view.column_edge(k)), *columns);
    }
    Ok(())
}

#[test]
fn ties_and_quarters_are_swept(rt: HostRuntime) -> Result<(), Fail> {
    let volume = [1, 2, 5, 10, 17, 26, 37, 50, 65, 82, 101, 122].map(Count::from);
    let cases = [
        (1, [81078, 66922, 34686, 524166, 429154, 249822]),
        (5, [24349, 40531, 40062, 321925, 348403, 201018]),
        (7, [15230, 78037, 25738, 69182, 492913, 377770]),
    ];
    for (step, cells) in cases {
        let plan = uneven(&EIGHT.map(heading), &[step])?;
        let mut working = [Count::ZERO; 6];
        forward(&plan, 0, Count::from(1), &volume, &mut working)?;
        assert_eq!(rt; working.map(i64::from), cells, "step {step}");
    }
    Ok(())
}

#[test]
fn a_row_of_all_calls_goes_by_a_list(rt: HostRuntime) -> Result<(), Fail> {
    let heap = rt.alloc();
    let plan = turned()?;
    let row = with_refused(heap, &six(heap, Count::from)?, Count::from(11))?;
    let volume = [
        0, 0, 0, 0, 0, 0, 7798295412, 8062842078, 0, 3173264660, 2655440450, 0,
    ];
    let measured = [
        100, 102, 104, 106, 108, 110, 1941016, 2925330, 927602, 6598738, 7628160, 1484024,
    ];
    let working = [
        -30, -28, -26, -24, -22, -20, 215656, 325024, 103054, 733180, 847560, 164878,
    ];
    let start = stores_of(heap, Count::from, [&VOLUME, &MEASURED, &WORKING])?;
    let expected = stores_of(heap, Count::from, [&volume, &measured, &working])?;
    assert_eq!(rt; outcome(&plan, &row, start)?, (expected, 12));
    Ok(())
}

#[test]
fn mirrored_rows_by_a_list(rt: HostRuntime) -> Result<(), Fail> {
    let heap = rt.alloc();
    let plan = turned()?;
    let cases = [(1, 0, -227666), (6, 4, -218606), (18, 12, -12914741392)];
    for (calls, refused, figure) in cases {
        let both = sides_of_first(heap, &plan, calls, Count::from)?;
        assert_eq!(rt; both, alike(Count::from(figure), refused), "{calls} calls");
    }
    let both = sides_of_first(heap, &plan, 18, beside)?;
    assert_eq!(rt; both, alike(pair(-12914741392, -35516800000), 12));
    let odd = |number: i64| Reach {
        yes: number & 1 == 1,
    };
    let both = sides_of_first(heap, &plan, 18, odd)?;
    assert_eq!(rt; both, alike(Reach { yes: true }, 12));
    Ok(())
}

#[test]
fn lists_have_1_to_1024_directions(rt: HostRuntime) -> Result<(), Fail> {
    let count = |found: usize| {
        let (least, most) = (1, 1024);
        Some((2, 0, Refusal::Count { found, least, most }))
    };
    assert_eq!(rt; told(draft(1000, 2000, 200, &[])), count(0));
    draft(1000, 2000, 200, &[AHEAD])?;
    draft(1000, 2000, 200, &[AHEAD; 1024])?;
    // The count is checked before the directions.
    let mut many = [AHEAD; 1025];
    assert_eq!(rt; told(draft(1000, 2000, 200, &many)), count(1025));
    many[0] = OFF;
    assert_eq!(rt; told(draft(1000, 2000, 200, &many)), count(1025));
    Ok(())
}

#[test]
fn directions_lie_near_the_circle(rt: HostRuntime) -> Result<(), Fail> {
    // On each side of each limit the nearest sum of squares that some pair has: 2^28 - 32,767 and + 32,762 ..
    for pair in [(0, 16_383), (8187, 14_193)] {
        draft(1000, 2000, 200, &[heading(pair)])?;
    }
    // .. and 2^28 - 32,771 and + 32,769.
    let least = -2_147_483_648;
    let off = [
        (181, 16_382),
        (0, 16_385),
        (16_385, 0),
        (0, 0),
        (278_528, 0),
        (least, least),
    ];
    for pair in off {
        let heading = heading(pair);
        let direction = 0;
        let refusal = Refusal::OffCircle { direction, heading };
        let made = draft(1000, 2000, 200, &[heading]);
        assert_eq!(rt; told(made), Some((11, 0, refusal)));
    }
    Ok(())
}

#[test]
fn the_first_direction_off_the_circle_is_told(rt: HostRuntime) {
    let off = |direction: usize| {
        let heading = OFF;
        Some((11, 0, Refusal::OffCircle { direction, heading }))
    };
    let none = Heading { c: 0, s: 0 };
    let made = draft(1000, 2000, 200, &[AHEAD, OFF, none]);
    assert_eq!(rt; told(made), off(1));
    let mut many = [AHEAD; 1024];
    many[1023] = OFF;
    assert_eq!(rt; told(draft(1000, 2000, 200, &many)), off(1023));
}

#[test]
fn distances_are_checked_before_a_list(rt: HostRuntime) {
    let cases = [
        (0, 2000, 200, (6, 0)),
        (1000, 999, 200, (6, 1)),
        (200, 2000, 200, (7, 0)),
        (1000, 2000, 2000, (8, 2)),
    ];
    for (source, panel, last, expected) in cases {
        let none: [Heading; 0] = [];
        assert_eq!(rt; refused(draft(source, panel, last, &none)), Some(expected));
        assert_eq!(rt; refused(draft(source, panel, last, &[OFF])), Some(expected));
    }
}

#[test]
fn a_step_is_a_place_in_the_list(rt: HostRuntime) -> Result<(), Fail> {
    let mut draft = draft(1000, 2000, 200, &THREE)?;
    draft.add_view(0)?;
    assert_eq!(rt; draft.add_view(2), Ok(1));
    for step in [3, -1, 63, 64] {
        let refusal = Refusal::StepOutOfRange {
            step: i64::from(step),
            directions: 3,
        };
        assert_eq!(rt; told(draft.add_view(step)), Some((9, 0, refusal)));
        assert_eq!(rt; draft.views(), 2);
    }
    // The step is checked before the number of views.
    for _ in 0..1022 {
        draft.add_view(1)?;
    }
    assert_eq!(rt; refused(draft.add_view(3)), Some((9, 0)));
    assert_eq!(rt; refused(draft.add_view(0)), Some((21, 0)));
    assert_eq!(rt; draft.seal().views(), 1024);
    Ok(())
}

#[test]
fn a_step_of_the_turn_table_is_below_64(rt: HostRuntime) -> Result<(), Fail> {
    assert_eq!(rt; small(&[63])?.views(), 1);
    let refusal = Refusal::StepOutOfRange {
        step: 64,
        directions: 64,
    };
    assert_eq!(rt; told(small(&[64])), Some((9, 0, refusal)));
    Ok(())
}

// Landweber's iteration from an image of twos; measured is the forward of ones.
#[test]
fn an_iteration_goes_by_a_list(rt: HostRuntime) -> Result<(), Fail> {
    let heap = rt.alloc();
    let plan = listed(&THREE, &[0, 1, 2])?;
    let factor = Count::from(1);
    let minus = Count::from(-1);
    let row = [
        Call::Forward {
            view: 0,
            factor: minus,
        },
        Call::Forward {
            view: 1,
            factor: minus,
        },
        Call::Forward {
            view: 2,
            factor: minus,
        },
        Call::Take { view: 0, factor },
        Call::Take { view: 1, factor },
        Call::Take { view: 2, factor },
        Call::Back { view: 0, factor },
        Call::Back { view: 1, factor },
        Call::Back { view: 2, factor },
    ];
    let measured = [19120, 19120, 19100, 18864, 17596, 18844];
    let start = stores_of(heap, Count::from, [&[2; 4], &measured, &[0; 6]])?;
    let image = [-476861966, -509956142, -580806606, -548900126];
    let working = [-19120, -19120, -19100, -18864, -17596, -18844];
    let expected = stores_of(heap, Count::from, [&image, &measured, &working])?;
    assert_eq!(rt; outcome(&plan, &row, start)?, (expected, 0));
    Ok(())
}
