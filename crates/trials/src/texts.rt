// What is printed of the kinds of value, of refusals and of numbers that no step has, and how counts convert.
use crate::small_plans::pair;
use geometry::heading::Heading;
use geometry::no_step::NoStep;
use scan::refusal::{Refusal, Store};
use scan::scan_axis::ScanAxis;
use std::alloc::{AllocError, Global};
use std::fmt;
use std::test::Fail;
use values::count::Count;
use values::reach::Reach;

// The least and the greatest number that a Count is shown as.
const ENDS: [i64; 2] = [i64::MIN, i64::MAX];

// Whether each thing is shown as the text beside it.
fn shown_as<T: fmt::Display>(heap: Global, cases: &[(T, &str)]) -> Result<bool, AllocError> {
    for (shown, text) in cases {
        if shown.to_string(heap)?.as_str() != *text {
            return Ok(false);
        }
    }
    Ok(true)
}

#[test]
fn counts_to_numbers_and_back(rt: HostRuntime) {
    assert_eq!(rt; Count::from(0), Count { bits: 0 });
    assert_eq!(rt; Count::from(7), Count { bits: 7 });
    assert_eq!(rt;
        Count::from(-1),
        Count {
            bits: 18_446_744_073_709_551_615
        }
    );
    assert_eq!(rt;
        ENDS.map(|number| Count::from(number).bits),
        [9_223_372_036_854_775_808, 9_223_372_036_854_775_807]
    );
    assert_eq!(rt;
        i64::from(Count {
            bits: 18_446_744_073_709_551_614
        }),
        -2
    );
    assert_eq!(rt; ENDS.map(|number| i64::from(Count::from(number))), ENDS);
}

#[test]
fn texts_of_counts(rt: HostRuntime) -> Result<(), Fail> {
    let cases = [
        (Count::from(0), "0"),
        (Count::from(19_120), "19120"),
        (Count::from(-1), "-1"),
        (Count::from(-28_840), "-28840"),
        (Count::from(ENDS[0]), "-9223372036854775808"),
        (Count::from(ENDS[1]), "9223372036854775807"),
    ];
    assert!(rt; shown_as(rt.alloc(), &cases)?);
    Ok(())
}

// A store is printed by its values' `{:?}`.
#[test]
fn texts_of_values_by_debug(rt: HostRuntime) -> Result<(), Fail> {
    let heap = rt.alloc();
    let store = [7, 0, -19_120].map(Count::from);
    let cases = [
        (format!(in heap; "{:?}", Count::from(-19_120))?, "-19120"),
        (format!(in heap; "{:?}", store)?, "[7, 0, -19120]"),
        (format!(in heap; "{:?}", pair(3, -4))?, "(3, -4)"),
        (format!(in heap; "{:?}", Reach { yes: true })?, "yes"),
        (format!(in heap; "{:?}", Reach { yes: false })?, "no"),
    ];
    for (shown, text) in &cases {
        assert_eq!(rt; shown.as_str(), *text);
    }
    Ok(())
}

#[test]
fn texts_of_refused_axes(rt: HostRuntime) -> Result<(), Fail> {
    let cases = [
        (
            Refusal::Count {
                found: 514,
                least: 2,
                most: 513,
            },
            "refused by 2 at place 0",
        ),
        (
            Refusal::NotMultiple { found: 3, of: 2 },
            "refused by 2 at place 0",
        ),
        (
            Refusal::NotRising {
                edge: 12,
                before: 3,
                at: 3,
            },
            "refused by 4 at place 12",
        ),
        (
            Refusal::OutOfRange {
                edge: 512,
                at: 4_194_305,
            },
            "refused by 5 at place 512",
        ),
    ];
    assert!(rt; shown_as(rt.alloc(), &cases)?);
    Ok(())
}

#[test]
fn texts_of_refused_drafts(rt: HostRuntime) -> Result<(), Fail> {
    let cases = [
        (Refusal::SourceDistance { at: 0 }, "refused by 6 at place 0"),
        (
            Refusal::PanelDistance {
                at: 999,
                source: 1000,
            },
            "refused by 6 at place 1",
        ),
        (
            Refusal::SourceTooNear {
                source: 200,
                widest: 100,
            },
            "refused by 7 at place 0",
        ),
        (
            Refusal::ColumnBeyond {
                edge: 2,
                at: 2000,
                panel: 2000,
            },
            "refused by 8 at place 2",
        ),
        (
            Refusal::OffCircle {
                direction: 5,
                heading: Heading { c: 16_385, s: 0 },
            },
            "refused by 11 at place 0",
        ),
    ];
    assert!(rt; shown_as(rt.alloc(), &cases)?);
    Ok(())
}

#[test]
fn texts_of_refused_calls(rt: HostRuntime) -> Result<(), Fail> {
    let cases = [
        (
            Refusal::StepOutOfRange {
                step: 64,
                directions: 64,
            },
            "refused by 9 at place 0",
        ),
        (
            Refusal::DraftFull { views: 1024 },
            "refused by 21 at place 0",
        ),
        (
            Refusal::NoView { view: 3, views: 3 },
            "refused by 22 at place 0",
        ),
        (
            Refusal::StoreLength {
                store: Store::Volume,
                found: 3,
                wanted: 4,
            },
            "refused by 23 at place 0",
        ),
        (
            Refusal::BoxBounds {
                axis: ScanAxis::X,
                lower: 2,
                upper: 1,
                cells: 3,
            },
            "refused by 24 at place 0",
        ),
    ];
    assert!(rt; shown_as(rt.alloc(), &cases)?);
    Ok(())
}

#[test]
fn texts_of_no_steps(rt: HostRuntime) -> Result<(), Fail> {
    let cases = [
        (
            NoStep { number: 64 },
            "no step of the turn has the number 64",
        ),
        (
            NoStep { number: -1 },
            "no step of the turn has the number -1",
        ),
    ];
    assert!(rt; shown_as(rt.alloc(), &cases)?);
    Ok(())
}
