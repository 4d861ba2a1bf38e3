// Which numbers have a step.
ghost use Rattle.std.specs.Prelude.{Some};
ghost use Rattle.geometry.specs.Steps.{StepOf, no_step_text};

use crate::step::{LAST_STEP, Step};
use std::error::Error;
use std::fmt;

/// A number that no step has.
#[derive(Clone, Copy, PartialEq, Eq, Debug)]
pub struct NoStep {
    pub number: i32,
}

impl TryFrom<i32> for Step {
    type Error = NoStep;

    ghost try_from_gives = { StepOf };

    fn try_from(number: i32) -> Result<Step, NoStep> {
        if (0..=LAST_STEP).contains(&number) {
            Ok(Step {
                // `as`, since the test above is all that `try_from` would do again.
                number: number as u8,
            })
        } else {
            Err(NoStep { number })
        }
    }
}

impl fmt::Display for NoStep {
    ghost output = { λ e. Some (no_step_text e) };

    fn fmt<W: fmt::Write>(&self, f: &mut fmt::Formatter<W>) -> fmt::Result {
        write!(f, "no step of the turn has the number {}", self.number)
    }
}

impl Error for NoStep {}

#[cfg(test)]
mod tests {
    use super::*;

    #[test]
    fn numbers_from_0_to_63_have_a_step(rt: HostRuntime) {
        assert_eq!(rt; Step::try_from(0), Ok(Step { number: 0 }));
        assert_eq!(rt; Step::try_from(63), Ok(Step { number: 63 }));
        assert_eq!(rt; Step::try_from(64), Err(NoStep { number: 64 }));
        assert_eq!(rt; Step::try_from(-1), Err(NoStep { number: -1 }));
    }
}
