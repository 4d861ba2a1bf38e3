// The figures are those of tools/oracle.txt, which a program made apart from the library writes.
use crate::outcomes::refused;
use crate::small_plans::{beside, pair, parts, small, uneven, uneven_before};
use scan::even::EvenAxis;
use std::test::Fail;
use sweeps::backprojection::back;
use sweeps::figures::worked_cells;
use sweeps::projection::forward;
use sweeps::tally::tally;
use values::count::Count;
use values::pair::Pair;
use values::reach::Reach;
use values::value::Value;

#[test]
fn the_worked_plan_gives_its_figures(rt: HostRuntime) -> Result<(), Fail> {
    let plan = small(&[0, 16])?;
    let ones = [1, 1, 1, 1].map(Count::from);
    let mut working = [Count::ZERO; 4];
    forward(&plan, 0, Count::from(1), &ones, &mut working)?;
    forward(&plan, 1, Count::from(1), &ones, &mut working)?;
    assert_eq!(rt; working.map(i64::from), worked_cells());
    let mut volume = [Count::ZERO; 4];
    back(&plan, 0, Count::from(1), &mut volume, &ones)?;
    assert_eq!(rt; volume.map(i64::from), [9120, 9120, 10000, 10000]);
    Ok(())
}

#[test]
fn refused_calls_leave_both_stores(rt: HostRuntime) -> Result<(), Fail> {
    let plan = small(&[0, 16])?;
    let one = Count::from(1);
    let mut four = [5, 6, 7, 8].map(Count::from);
    let mut three = [5, 6, 7].map(Count::from);
    assert_eq!(rt;
        refused(forward(&plan, 2, one, &three, &mut four)),
        Some((22, 0))
    );
    assert_eq!(rt;
        refused(forward(&plan, 1, one, &three, &mut four)),
        Some((23, 0))
    );
    assert_eq!(rt;
        refused(back(&plan, 2, one, &mut three, &four)),
        Some((22, 0))
    );
    assert_eq!(rt;
        refused(back(&plan, 0, one, &mut three, &four)),
        Some((23, 0))
    );
    assert_eq!(rt;
        refused(back(&plan, 0, one, &mut four, &three)),
        Some((23, 0))
    );
    assert_eq!(rt; four.map(i64::from), [5, 6, 7, 8]);
    assert_eq!(rt; three.map(i64::from), [5, 6, 7]);
    Ok(())
}

#[test]
fn slabs_along_x_are_swept_both_ways(rt: HostRuntime) -> Result<(), Fail> {
    let plan = small(&[20])?;
    let mut volume = [1, 2, 3, 4].map(Count::from);
    let mut working = [5, 5].map(Count::from);
    forward(&plan, 0, Count::from(3), &volume, &mut working)?;
    assert_eq!(rt; working.map(i64::from), [94637, 174875]);
    let cells = [7, -2].map(Count::from);
    back(&plan, 0, Count::from(3), &mut volume, &cells)?;
    assert_eq!(rt; volume.map(i64::from), [159409, 165818, -55689, -2816]);
    Ok(())
}

#[test]
fn uneven_cells_are_swept_forward(rt: HostRuntime) -> Result<(), Fail> {
    let plan = uneven()?;
    let volume = [1, 2, 5, 10, 17, 26, 37, 50, 65, 82, 101, 122].map(Count::from);
    let mut working = [Count::ZERO; 12];
    forward(&plan, 1, Count::from(-1), &volume, &mut working)?;
    assert_eq!(rt;
        working.map(i64::from),
        [
            0, 0, 0, 0, 0, 0, -28413, -63011, -13260, -388137, -382343, -88140,
        ]
    );
    Ok(())
}

#[test]
fn pairs_are_swept_forward(rt: HostRuntime) -> Result<(), Fail> {
    let plan = uneven()?;
    let volume = [1, 2, 5, 10, 17, 26, 37, 50, 65, 82, 101, 122].map(beside);
    let mut working = [Pair::ZERO; 12];
    let minus = pair(-1, -1);
    forward(&plan, 0, minus, &volume, &mut working)?;
    let zero = (0, 0);
    let cells = [
        (-36192, -79392),
        (-55438, -117050),
        (-97314, -200229),
        (-332592, -672192),
        (-378910, -763994),
        (-465066, -935733),
        zero,
        zero,
        zero,
        zero,
        zero,
        zero,
    ];
    assert_eq!(rt; working.map(parts), cells);
    Ok(())
}

#[test]
fn pairs_are_swept_back(rt: HostRuntime) -> Result<(), Fail> {
    let plan = uneven()?;
    let minus = pair(-1, -1);
    let cells = [9, 11, 13, 15, 17, 19, 0, 0, 0, 0, 0, 0].map(beside);
    let mut volume = [Pair::ZERO; 12];
    back(&plan, 0, minus, &mut volume, &cells)?;
    let expected = [
        (-38412, -80652),
        (-45142, -94170),
        (-37098, -76922),
        (-49932, -104652),
        (-54312, -112908),
        (-43503, -90117),
        (-37620, -77748),
        (-42218, -86982),
        (-33174, -68134),
        (-48500, -100148),
        (-50656, -104176),
        (-39729, -81549),
    ];
    assert_eq!(rt; volume.map(parts), expected);
    Ok(())
}

#[test]
fn reaches_are_swept_both_ways(rt: HostRuntime) -> Result<(), Fail> {
    let plan = uneven()?;
    let yes = Reach { yes: true };
    let no = Reach { yes: false };
    let mut volume = [yes, no, yes, no, yes, no, yes, no, yes, no, yes, no];
    let mut working = [Reach::ZERO; 12];
    forward(&plan, 1, yes, &volume, &mut working)?;
    assert_eq!(rt; tally(&working), 4);
    back(&plan, 1, yes, &mut volume, &working)?;
    assert_eq!(rt; (tally(&volume), tally(&[])), (12, 0));
    Ok(())
}

// More columns than a sweep takes at once, and falling S.
#[test]
fn more_columns_than_a_block_are_swept_forward(rt: HostRuntime) -> Result<(), Fail> {
    let plan = uneven_before(&EvenAxis::new(-180, 20, 18)?, &[40])?;
    let volume = [1, 2, 5, 10, 17, 26, 37, 50, 65, 82, 101, 122].map(Count::from);
    let mut working = [Count::ZERO; 36];
    forward(&plan, 0, Count::from(2), &volume, &mut working)?;
    // The columns of row 0, and then those of row 1.
    let expected = [
        19136, 29328, 31772, 31772, 26208, 27456, 28028, 30184, 28824, 19950, 17760, 17760, 17820,
        17300, 10516, 1696, 1802, 1802, 74432, 114576, 124124, 124124, 134136, 168168, 172484,
        185752, 181392, 155670, 159600, 159600, 161100, 155660, 109444, 50080, 53210, 53210,
    ];
    assert_eq!(rt; working.map(i64::from), expected);
    Ok(())
}

#[test]
fn more_columns_than_a_block_are_swept_back(rt: HostRuntime) -> Result<(), Fail> {
    let heap = rt.alloc();
    let plan = uneven_before(&EvenAxis::new(-180, 20, 18)?, &[40])?;
    let cells: Vec<Count> = (1..37).map(Count::from).collect(heap)?;
    let mut volume = [Count::ZERO; 12];
    back(&plan, 0, Count::from(2), &mut volume, &cells)?;
    let expected = [
        176584, 136864, 67780, 143130, 84410, 33386, 204556, 176276, 102916, 185562, 135338, 75314,
    ];
    assert_eq!(rt; volume.map(i64::from), expected);
    Ok(())
}

#[test]
fn kinds_name_their_zeros(rt: HostRuntime) {
    assert_eq!(rt; Count::ZERO, Count::from(0));
    assert_eq!(rt; Pair::ZERO, pair(0, 0));
    assert_eq!(rt; Reach::ZERO, Reach { yes: false });
}

#[test]
fn kinds_begin_at_their_zeros(rt: HostRuntime) {
    assert_eq!(rt; Count::default(), Count::ZERO);
    assert_eq!(rt; Pair::default(), Pair::ZERO);
    assert_eq!(rt; Reach::default(), Reach::ZERO);
}
