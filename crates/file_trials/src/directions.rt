// Plans with a list of directions.
use crate::example::{PLAN, VOXELS};
use geometry::heading::Heading;
use planfile::fault::Fault;
use planfile::placed::Placed;
use planfile::plan::read_plan;
use scan::landed::Landed;
use scan::refusal::Refusal;
use std::alloc::{AllocError, Global};
use std::test::Fail;

// The byte of the example's plan at which its section of directions begins.
const START: usize = 84;

// The section of docs/PLAN-FILES.md: 16384 and 0, 16069 and 3196, 14189 and 8192.
const THREE: [u8; 28] = [
    6, 0, 0, 0, 0, 64, 0, 0, 0, 0, 0, 0, 197, 62, 0, 0, 124, 12, 0, 0, 109, 55, 0, 0, 0, 32, 0, 0,
];

// The section of steps 0, 1, 2.
const STEPS: [u8; 16] = [3, 0, 0, 0, 0, 0, 0, 0, 1, 0, 0, 0, 2, 0, 0, 0];

// The sections of a file before its directions, its directions, and its steps.
fn joined(heap: Global, sections: [&[u8]; 3]) -> Result<Vec<u8>, AllocError> {
    let mut bytes = Vec::new(heap);
    for section in sections {
        bytes.extend_from_slice(section)?;
    }
    Ok(bytes)
}

// The number and the place of the fault of such a file, beside what is known of it.
fn told(heap: Global, sections: [&[u8]; 3]) -> Result<Option<(u8, usize, Fault)>, AllocError> {
    let bytes = joined(heap, sections)?;
    let fault = read_plan(&bytes).err();
    Ok(fault.map(|fault| (fault.number(), fault.place(), fault)))
}

// What is told of a refusal at a byte.
fn at(number: u8, place: usize, refusal: Refusal) -> Option<(u8, usize, Fault)> {
    Some((number, place, Fault::Refused(Placed { refusal, place })))
}

// What is told of a number that is not there, or not whole.
fn incomplete(place: usize) -> Option<(u8, usize, Fault)> {
    Some((1, place, Fault::Incomplete { place }))
}

#[test]
fn a_list_is_read_and_what_follows_is_handed_back(rt: HostRuntime) -> Result<(), Fail> {
    let mut bytes = joined(rt.alloc(), [&PLAN[..START], &THREE, &STEPS])?;
    bytes.extend_from_slice(&VOXELS)?;
    let (plan, rest) = read_plan(&bytes)?;
    assert_eq!(rt; rest, VOXELS.as_slice());
    let edges = [[-100, 0, 100], [-100, 0, 104], [-109, 0, 123]];
    for (number, expected) in edges.iter().enumerate() {
        let view = plan.view(number).ok_or("no view")?;
        assert_eq!(rt; [0, 1, 2].map(|k| view.column_edge(k)), *expected);
    }
    assert!(rt; plan.view(3).is_none());
    Ok(())
}

#[test]
fn directions_are_two_numbers_each_and_1024_at_most(rt: HostRuntime) -> Result<(), Fail> {
    let odd = [1, 2047].map(|found| Refusal::NotMultiple { found, of: 2 });
    let beyond = [2049, 2050].map(|found| Refusal::Count {
        found,
        least: 0,
        most: 2048,
    });
    // 1, 2,047, 2,049 and 2,050, and no numbers: a count beyond the limit is told before an odd one.
    let cases = [
        ([1, 0, 0, 0], odd[0]),
        ([255, 7, 0, 0], odd[1]),
        ([1, 8, 0, 0], beyond[0]),
        ([2, 8, 0, 0], beyond[1]),
    ];
    for (count, refusal) in cases {
        let made = told(rt.alloc(), [&PLAN[..START], &count, &[]])?;
        assert_eq!(rt; made, at(2, START, refusal));
    }
    Ok(())
}

#[test]
fn the_longest_list_is_read(rt: HostRuntime) -> Result<(), Fail> {
    // 2,048 numbers: 16384 and 0, 1,024 times.
    let mut list = [0, 8, 0, 0].to_vec(rt.alloc())?;
    for _ in 0..1024 {
        list.extend_from_slice(&[0, 64, 0, 0, 0, 0, 0, 0])?;
    }
    // Step 1,023.
    let steps = [1, 0, 0, 0, 255, 3, 0, 0];
    let bytes = joined(rt.alloc(), [&PLAN[..START], &list, &steps])?;
    let (plan, rest) = read_plan(&bytes)?;
    assert_eq!(rt; (plan.views(), rest.len()), (1, 0));
    Ok(())
}

#[test]
fn a_list_that_ends_early_is_incomplete(rt: HostRuntime) -> Result<(), Fail> {
    for length in 0..28 {
        let made = told(rt.alloc(), [&PLAN[..START], &THREE[..length], &[]])?;
        let place = START + length / 4 * 4;
        assert_eq!(rt; made, incomplete(place), "{length} bytes");
    }
    Ok(())
}

#[test]
fn the_first_direction_off_the_circle_is_told(rt: HostRuntime) -> Result<(), Fail> {
    let heap = rt.alloc();
    // The last pair becomes 0 and 0, and then the first 16385 and 0.
    let mut list = THREE;
    (list[20], list[21], list[25]) = (0, 0, 0);
    let heading = Heading { c: 0, s: 0 };
    let direction = 2;
    assert_eq!(rt;
        told(heap, [&PLAN[..START], &list, &STEPS])?,
        at(11, 104, Refusal::OffCircle { direction, heading })
    );
    list[4] = 1;
    let heading = Heading { c: 16_385, s: 0 };
    let direction = 0;
    assert_eq!(rt;
        told(heap, [&PLAN[..START], &list, &STEPS])?,
        at(11, 88, Refusal::OffCircle { direction, heading })
    );
    // A direction is looked at only once the whole list is there.
    assert_eq!(rt;
        told(heap, [&PLAN[..START], &list[..27], &[]])?,
        incomplete(108)
    );
    Ok(())
}

#[test]
fn a_step_is_a_place_in_the_list(rt: HostRuntime) -> Result<(), Fail> {
    // 3 and -1 as the last step.
    for (bytes, step) in [([3, 0, 0, 0], 3), ([255, 255, 255, 255], -1)] {
        let directions = 3;
        let refusal = Refusal::StepOutOfRange { step, directions };
        let mut steps = STEPS;
        steps[12..].copy_from_slice(&bytes);
        let made = told(rt.alloc(), [&PLAN[..START], &THREE, &steps])?;
        assert_eq!(rt; made, at(9, 124, refusal));
    }
    Ok(())
}

#[test]
fn checks_of_distances_come_before_those_of_directions_and_these_before_those_of_steps(
    rt: HostRuntime,
) -> Result<(), Fail> {
    let heap = rt.alloc();
    // The first pair becomes 16385 and 0, the first step 3, the last edge of the columns 2,000, and D 200.
    let (mut front, mut list, mut steps) = (PLAN, THREE, STEPS);
    list[4] = 1;
    steps[4] = 3;
    let number = |told: Option<(u8, usize, Fault)>| told.map(|(number, place, _)| (number, place));
    let made = told(heap, [&front[..START], &list, &steps])?;
    assert_eq!(rt; number(made), Some((11, 88)));
    (front[68], front[69]) = (208, 7);
    let made = told(heap, [&front[..START], &list, &steps])?;
    assert_eq!(rt; number(made), Some((8, 68)));
    (front[4], front[5]) = (200, 0);
    let made = told(heap, [&front[..START], &list, &steps])?;
    assert_eq!(rt; number(made), Some((7, 4)));
    Ok(())
}
