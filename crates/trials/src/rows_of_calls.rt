// The calls between sweeps, rows of calls, and their mirrored rows. The figures are those of tools/oracle.txt.
use crate::outcomes::told;
use crate::small_plans::{beside, pair, small, uneven};
use calls::call::Call;
use calls::mirror::mirror;
use calls::voxel_box::{Bounds, VoxelBox};
use scan::plan::Plan;
use scan::refusal::{Refusal, Store};
use scan::scan_axis::ScanAxis;
use std::alloc::{AllocError, Global};
use std::test::Fail;
use sweeps::backprojection::back;
use sweeps::projection::forward;
use sweeps::row::{perform, run};
use sweeps::scaling::scale;
use sweeps::transfer::{give, take};
use sweeps::trimming::trim;
use values::count::Count;
use values::reach::Reach;
use values::value::Value;

// What tests begin from on the uneven plan.
pub(crate) const VOLUME: [i64; 12] = [4, 2, 6, 8, 9, 14, 12, 18, 16, 20, 26, 22];

pub(crate) const MEASURED: [i64; 12] = [100, 102, 104, 106, 108, 110, 112, 114, 116, 118, 120, 122];

pub(crate) const WORKING: [i64; 12] = [-30, -28, -26, -24, -22, -20, -18, -16, -14, -12, -10, -8];

#[derive(PartialEq, Debug, Drop)]
pub(crate) struct Stores<V: Value> {
    volume: Vec<V>,
    measured: Vec<V>,
    working: Vec<V>,
}

// What a function makes of each item.
fn mapped<T: Copy, U: Drop, F: Fn(T) -> U>(
    heap: Global,
    items: &[T],
    f: F,
) -> Result<Vec<U>, AllocError>
    requires { F.IsAlwaysCallable f }
{
    items.iter().map(|&item| f(item)).collect(heap)
}

pub(crate) fn stores_of<V: Value, F: Fn(i64) -> V>(
    heap: Global,
    value: F,
    numbers: [&[i64]; 3],
) -> Result<Stores<V>, AllocError>
    requires { F.IsAlwaysCallable value }
{
    let [volume, measured, working] = numbers;
    Ok(Stores {
        volume: mapped(heap, volume, &value)?,
        measured: mapped(heap, measured, &value)?,
        working: mapped(heap, working, &value)?,
    })
}

pub(crate) fn outcome<V: Value>(
    plan: &Plan,
    row: &[Call<V>],
    mut stores: Stores<V>,
) -> Result<(Stores<V>, usize), Refusal> {
    let refused = run(
        plan,
        row,
        &mut stores.volume,
        &mut stores.measured,
        &mut stores.working,
    )?;
    Ok((stores, refused))
}

fn sum_of_products<V: Value>(a: &[V], b: &[V]) -> V {
    a.iter()
        .zip(b)
        .fold(V::ZERO, |total: V, (x, y)| total.plus(x.times(*y)))
}

// Over all places of all three stores.
fn inner<V: Value>(a: &Stores<V>, b: &Stores<V>) -> V {
    sum_of_products(&a.volume, &b.volume)
        .plus(sum_of_products(&a.measured, &b.measured))
        .plus(sum_of_products(&a.working, &b.working))
}

// The inner products of a row's outcome from the start with the test stores, and of the start with the mirrored row's
// outcome from those; and how many calls either row refused.
#[derive(Clone, Copy, PartialEq, Debug)]
pub(crate) struct Sides<V> {
    row: V,
    mirrored: V,
    refused: (usize, usize),
}

// Both sides the same.
pub(crate) fn alike<V: Value>(side: V, refused: usize) -> Sides<V> {
    Sides {
        row: side,
        mirrored: side,
        refused: (refused, refused),
    }
}

fn both_sides<V: Value, F: Fn(i64) -> V>(
    heap: Global,
    plan: &Plan,
    row: &mut [Call<V>],
    value: F,
    start: [&[i64]; 3],
    test: [&[i64]; 3],
) -> Result<Sides<V>, Fail>
    requires { F.IsAlwaysCallable value }
{
    let (there, refused) = outcome(plan, row, stores_of(heap, &value, start)?)?;
    mirror(row);
    let (here, refused_too) = outcome(plan, row, stores_of(heap, &value, test)?)?;
    Ok(Sides {
        row: inner(&there, &stores_of(heap, &value, test)?),
        mirrored: inner(&stores_of(heap, &value, start)?, &here),
        refused: (refused, refused_too),
    })
}

#[test]
fn the_worked_row_and_its_mirrored_row_tell_the_same(rt: HostRuntime) -> Result<(), Fail> {
    let heap = rt.alloc();
    let plan = small(&[0])?;
    let (view, factor) = (0, Count::from(1));
    let mut row = [Call::Forward { view, factor }, Call::Back { view, factor }];
    let start: [&[i64]; 3] = [&[1, 1, 1, 1], &[0, 0], &[0, 0]];
    let test: [&[i64]; 3] = [&[0, 0, 0, 0], &[0, 0], &[1, 0]];
    let side = Count::from(19120);
    assert_eq!(rt;
        both_sides(heap, &plan, &mut row, Count::from, start, test)?,
        alike(side, 0)
    );
    Ok(())
}

#[test]
fn cells_are_taken_given_and_scaled(rt: HostRuntime) -> Result<(), Fail> {
    let plan = uneven()?;
    let mut measured = MEASURED.map(Count::from);
    let mut working = WORKING.map(Count::from);
    give(&plan, 1, Count::from(-2), &mut measured, &working)?;
    let given = [100, 102, 104, 106, 108, 110, 148, 146, 144, 142, 140, 138];
    assert_eq!(rt; measured.map(i64::from), given);
    scale(&plan, 1, Count::from(-7), &mut working)?;
    let scaled = [-30, -28, -26, -24, -22, -20, 126, 112, 98, 84, 70, 56];
    assert_eq!(rt; working.map(i64::from), scaled);
    let measured = MEASURED.map(Count::from);
    let mut working = WORKING.map(Count::from);
    take(&plan, 1, Count::from(5), &measured, &mut working)?;
    let taken = [-30, -28, -26, -24, -22, -20, 542, 554, 566, 578, 590, 602];
    assert_eq!(rt; working.map(i64::from), taken);
    Ok(())
}

fn boxed(x: (usize, usize), y: (usize, usize), z: (usize, usize)) -> VoxelBox {
    let [x, y, z] = [x, y, z].map(|(lower, upper)| Bounds { lower, upper });
    VoxelBox { x, y, z }
}

#[test]
fn voxels_outside_a_box_become_zero(rt: HostRuntime) -> Result<(), Fail> {
    let plan = uneven()?;
    let (x, y, z) = ((0, 3), (0, 2), (0, 2));
    let cases = [
        (
            boxed((1, 3), (1, 2), z),
            [0, 0, 0, 0, 9, 14, 0, 0, 0, 0, 26, 22],
        ),
        (boxed((1, 1), y, z), [0; 12]),
        (boxed((3, 3), y, z), [0; 12]),
        (boxed(x, y, z), VOLUME),
        (boxed((2, 3), y, z), [0, 0, 6, 0, 0, 14, 0, 0, 16, 0, 0, 22]),
        (boxed(x, (0, 1), z), [4, 2, 6, 0, 0, 0, 12, 18, 16, 0, 0, 0]),
        (
            boxed(x, y, (1, 2)),
            [0, 0, 0, 0, 0, 0, 12, 18, 16, 20, 26, 22],
        ),
        (
            boxed((2, 3), (1, 2), (1, 2)),
            [0, 0, 0, 0, 0, 0, 0, 0, 0, 0, 0, 22],
        ),
    ];
    for (within, expected) in cases {
        let mut volume = VOLUME.map(Count::from);
        trim(&plan, within, &mut volume)?;
        assert_eq!(rt; volume.map(i64::from), expected, "{within:?}");
    }
    Ok(())
}

// What is told of a store that has not the 12 places of the uneven plan's stores.
fn other_length(store: Store, found: usize) -> Option<(u8, usize, Refusal)> {
    let wanted = 12;
    Some((
        23,
        0,
        Refusal::StoreLength {
            store,
            found,
            wanted,
        },
    ))
}

#[test]
fn refused_calls_on_cells_leave_both_stores(rt: HostRuntime) -> Result<(), Fail> {
    let plan = uneven()?;
    let f = Count::from(5);
    let mut fit = [f; 12];
    let mut short = [f; 11];
    let mut long = [f; 13];
    let no_view = Some((22, 0, Refusal::NoView { view: 2, views: 2 }));
    let measured = other_length(Store::Measured, 11);
    let working = other_length(Store::Working, 13);
    assert_eq!(rt; told(take(&plan, 2, f, &short, &mut long)), no_view);
    assert_eq!(rt; told(take(&plan, 1, f, &short, &mut long)), measured);
    assert_eq!(rt; told(take(&plan, 1, f, &fit, &mut long)), working);
    assert_eq!(rt; told(give(&plan, 2, f, &mut short, &long)), no_view);
    assert_eq!(rt; told(give(&plan, 1, f, &mut short, &long)), measured);
    assert_eq!(rt; told(give(&plan, 1, f, &mut fit, &long)), working);
    assert_eq!(rt; told(scale(&plan, 2, f, &mut long)), no_view);
    assert_eq!(rt; told(scale(&plan, 1, f, &mut long)), working);
    for store in [fit.as_slice(), short.as_slice(), long.as_slice()] {
        assert!(rt; store.iter().all(|value| *value == f));
    }
    Ok(())
}

#[test]
fn refused_boxes_leave_the_volume(rt: HostRuntime) -> Result<(), Fail> {
    let plan = uneven()?;
    let (x, y, z) = ((0, 3), (0, 2), (0, 2));
    let cases = [
        (boxed((2, 1), y, z), ScanAxis::X, 2, 1, 3),
        (boxed((0, 4), y, z), ScanAxis::X, 0, 4, 3),
        (boxed(x, (2, 1), z), ScanAxis::Y, 2, 1, 2),
        (boxed(x, (0, 3), z), ScanAxis::Y, 0, 3, 2),
        (boxed(x, y, (2, 1)), ScanAxis::Z, 2, 1, 2),
        (boxed(x, y, (0, 3)), ScanAxis::Z, 0, 3, 2),
        (boxed((3, 2), (3, 3), (4, 2)), ScanAxis::X, 3, 2, 3),
        (boxed((3, 3), (3, 3), (4, 2)), ScanAxis::Y, 3, 3, 2),
    ];
    let mut volume = VOLUME.map(Count::from);
    for (within, axis, lower, upper, cells) in cases {
        let refusal = Refusal::BoxBounds {
            axis,
            lower,
            upper,
            cells,
        };
        assert_eq!(rt;
            told(trim(&plan, within, &mut volume)),
            Some((24, 0, refusal))
        );
    }
    assert_eq!(rt; volume.map(i64::from), VOLUME);
    let mut short = [1, 2, 3].map(Count::from);
    let made = trim(&plan, boxed((2, 1), y, z), &mut short);
    assert_eq!(rt; told(made), other_length(Store::Volume, 3));
    assert_eq!(rt; short.map(i64::from), [1, 2, 3]);
    Ok(())
}

// The six calls, each on what the others leave.
pub(crate) fn six<V: Value, F: Fn(i64) -> V>(
    heap: Global,
    value: F,
) -> Result<Vec<Call<V>>, AllocError>
    requires { F.IsAlwaysCallable value }
{
    let view = 1;
    let (a, b, c) = (value(-1), value(5), value(-7));
    let (d, e) = (value(9), value(3));
    let within = boxed((0, 2), (0, 2), (1, 2));
    let mut row = Vec::new(heap);
    row.push(Call::Forward { view, factor: a })?;
    row.push(Call::Take { view, factor: b })?;
    row.push(Call::Scale { view, factor: c })?;
    row.push(Call::Give { view, factor: d })?;
    row.push(Call::Back { view, factor: e })?;
    row.push(Call::Trim { within })?;
    Ok(row)
}

#[test]
fn calls_of_a_row_do_what_they_do_alone(rt: HostRuntime) -> Result<(), Fail> {
    let heap = rt.alloc();
    let plan = uneven()?;
    let mut made = stores_of(heap, Count::from, [&VOLUME, &MEASURED, &WORKING])?;
    for call in six(heap, Count::from)? {
        perform(
            &plan,
            call,
            &mut made.volume,
            &mut made.measured,
            &mut made.working,
        )?;
    }
    // The same six.
    let mut alone = stores_of(heap, Count::from, [&VOLUME, &MEASURED, &WORKING])?;
    let (a, b, c) = (Count::from(-1), Count::from(5), Count::from(-7));
    let (d, e) = (Count::from(9), Count::from(3));
    forward(&plan, 1, a, &alone.volume, &mut alone.working)?;
    take(&plan, 1, b, &alone.measured, &mut alone.working)?;
    scale(&plan, 1, c, &mut alone.working)?;
    give(&plan, 1, d, &mut alone.measured, &alone.working)?;
    back(&plan, 1, e, &mut alone.volume, &alone.working)?;
    trim(&plan, boxed((0, 2), (0, 2), (1, 2)), &mut alone.volume)?;
    assert_eq!(rt; made, alone);
    Ok(())
}

fn all_are(store: &[Count], count: Count) -> bool {
    store.iter().all(|value| *value == count)
}

#[test]
fn refused_calls_of_a_row_tell_why_and_leave_the_stores(rt: HostRuntime) -> Result<(), Fail> {
    let plan = uneven()?;
    let factor = Count::from(5);
    let (mut volume, mut measured, mut working) = ([factor; 12], [factor; 12], [factor; 12]);
    let within = boxed((0, 3), (0, 2), (2, 1));
    let bounds = Refusal::BoxBounds {
        axis: ScanAxis::Z,
        lower: 2,
        upper: 1,
        cells: 2,
    };
    let cases = [
        (
            Call::Back { view: 2, factor },
            12,
            Some((22, 0, Refusal::NoView { view: 2, views: 2 })),
        ),
        (
            Call::Take { view: 1, factor },
            11,
            other_length(Store::Working, 11),
        ),
        (Call::Trim { within }, 12, Some((24, 0, bounds))),
    ];
    for (call, places, why) in cases {
        let made = perform(
            &plan,
            call,
            &mut volume,
            &mut measured,
            &mut working[..places],
        );
        assert_eq!(rt; told(made), why);
        assert!(rt;
            all_are(&volume, factor) && all_are(&measured, factor) && all_are(&working, factor)
        );
    }
    Ok(())
}

// A row, and after each of its calls two that the uneven plan refuses, for their view and for their box.
pub(crate) fn with_refused<V: Value>(
    heap: Global,
    row: &[Call<V>],
    factor: V,
) -> Result<Vec<Call<V>>, AllocError> {
    let view = 2;
    let within = boxed((0, 4), (0, 0), (0, 0));
    let mut longer = Vec::new(heap);
    for &call in row {
        longer.push(call)?;
        longer.push(Call::Back { view, factor })?;
        longer.push(Call::Trim { within })?;
    }
    Ok(longer)
}

#[test]
fn a_row_on_stores_of_other_lengths_changes_nothing(rt: HostRuntime) -> Result<(), Fail> {
    let heap = rt.alloc();
    let plan = uneven()?;
    let row = six(heap, Count::from)?;
    let five = Count::from(5);
    let cases = [
        (11, 13, 12, Store::Volume, 11),
        (12, 13, 11, Store::Measured, 13),
        (12, 12, 11, Store::Working, 11),
    ];
    for (voxels, cells, places, store, found) in cases {
        let mut volume = vec![in heap; five; voxels]?;
        let mut measured = vec![in heap; five; cells]?;
        let mut working = vec![in heap; five; places]?;
        let made = run(&plan, &row, &mut volume, &mut measured, &mut working);
        assert_eq!(rt; told(made), other_length(store, found));
        for values in [&volume, &measured, &working] {
            assert!(rt; values.iter().all(|value| *value == five));
        }
    }
    Ok(())
}

#[test]
fn a_row_of_all_calls_goes_on_past_refused_ones(rt: HostRuntime) -> Result<(), Fail> {
    let heap = rt.alloc();
    let plan = uneven()?;
    let row = six(heap, Count::from)?;
    let longer = with_refused(heap, &row, Count::from(11))?;
    let volume = [
        0, 0, 0, 0, 0, 0, 8723995068, 8489121750, 0, 1001580236, 2467348910, 0,
    ];
    let measured = [
        100, 102, 104, 106, 108, 110, 2302006, 2787045, 632762, 7582042, 6544812, 1416740,
    ];
    let working = [
        -30, -28, -26, -24, -22, -20, 255766, 309659, 70294, 842436, 727188, 157402,
    ];
    for (row, refused) in [(&row, 0), (&longer, 12)] {
        let start = stores_of(heap, Count::from, [&VOLUME, &MEASURED, &WORKING])?;
        let expected = stores_of(heap, Count::from, [&volume, &measured, &working])?;
        assert_eq!(rt; outcome(&plan, row, start)?, (expected, refused));
    }
    Ok(())
}

// Both sides for the first so many calls of a row of all six with refused ones among them.
pub(crate) fn sides_of_first<V: Value, F: Fn(i64) -> V>(
    heap: Global,
    plan: &Plan,
    calls: usize,
    value: F,
) -> Result<Sides<V>, Fail>
    requires { F.IsAlwaysCallable value }
{
    let mut row = with_refused(heap, &six(heap, &value)?, value(11))?;
    row.truncate(calls);
    let start: [&[i64]; 3] = [&VOLUME, &MEASURED, &WORKING];
    let test: [&[i64]; 3] = [
        &[2, -4, 6, 8, 10, -2, 4, -6, 2, 8, -8, 6],
        &[-12, -10, -8, -6, -4, -2, 0, 2, 4, 6, 8, 10],
        &[4, 6, -2, 8, 2, 10, -6, 2, 12, -4, 3, 8],
    ];
    both_sides(heap, plan, &mut row, &value, start, test)
}

#[test]
fn mirrored_rows_of_counts(rt: HostRuntime) -> Result<(), Fail> {
    for (calls, refused, figure) in [(0, 0, -1352), (1, 0, -10172), (18, 12, -27644782060)] {
        let sides = alike(Count::from(figure), refused);
        let both = sides_of_first(rt.alloc(), &uneven()?, calls, Count::from)?;
        assert_eq!(rt; both, sides, "{calls} calls");
    }
    Ok(())
}

#[test]
fn mirrored_rows_of_pairs(rt: HostRuntime) -> Result<(), Fail> {
    let cases = [
        (0, 0, pair(-1352, -2736)),
        (1, 0, pair(-10172, -693736)),
        (18, 12, pair(-27644782060, -311524052664)),
    ];
    for (calls, refused, side) in cases {
        let sides = alike(side, refused);
        let both = sides_of_first(rt.alloc(), &uneven()?, calls, beside)?;
        assert_eq!(rt; both, sides, "{calls} calls");
    }
    Ok(())
}

// Yes is an odd number: one voxel of the start, and one working cell of the test stores, which the first call reaches.
#[test]
fn mirrored_rows_of_reaches(rt: HostRuntime) -> Result<(), Fail> {
    for (calls, refused, yes) in [(0, 0, false), (1, 0, true), (18, 12, true)] {
        let sides = alike(Reach { yes }, refused);
        let odd = |number: i64| Reach {
            yes: number & 1 == 1,
        };
        let both = sides_of_first(rt.alloc(), &uneven()?, calls, odd)?;
        assert_eq!(rt; both, sides, "{calls} calls");
    }
    Ok(())
}
