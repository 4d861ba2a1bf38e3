use planfile::fault::Fault;
use planfile::placed::Placed;
use scan::refusal::Refusal;
use std::test::Fail;

#[test]
fn faults_are_printed_with_number_and_place(rt: HostRuntime) -> Result<(), Fail> {
    let heap = rt.alloc();
    let placed = Fault::from(Placed {
        refusal: Refusal::StepOutOfRange {
            step: 64,
            directions: 64,
        },
        place: 96,
    });
    let cases = [
        (Fault::Incomplete { place: 116 }, "refused 1 at 116"),
        (Fault::Trailing { place: 120 }, "refused 3 at 120"),
        (placed, "refused 9 at 96"),
    ];
    for (fault, text) in &cases {
        assert_eq!(rt; fault.to_string(heap)?.as_str(), *text);
    }
    Ok(())
}
