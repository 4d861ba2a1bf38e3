// An axis whose edges are lent bytes.
ghost use Rattle.std.specs.Prelude.{◌≡◌};
ghost use Rattle.scan.specs.Axes.{Proper};
ghost use Rattle.scan.specs.Verdicts.{Verdict};
ghost use Rattle.scan.specs.AxisChecks.{listed_check};
ghost use Rattle.planfile.specs.Numbers.{numbers_in};

use crate::numbers::Numbers;
use scan::axis::Axis;
use scan::edges::check_listed;
use scan::refusal::Refusal;

/// An axis whose edges are the numbers that lent bytes hold.
#[derive(Clone, Copy)]
pub struct BytesAxis<'a> {
    numbers: Numbers<'a>,
    ghost proper: { Proper (numbers_in numbers.bytes.now) },
}

impl<'a> BytesAxis<'a> {
    /// The axis of these 2 to 513 edges, which are not copied. Checks 2, 5, 4, by `listed_check` of scan/specs/AxisChecks.
    pub fn new(edges: Numbers<'a>) -> Result<BytesAxis<'a>, Refusal>
        ensures { Verdict (listed_check (numbers_in edges.entry.bytes.now)) (λ a. ⟦<BytesAxis<'static> as Axis>⟧.edges a ≡ numbers_in edges.entry.bytes.now) result }
    {
        check_listed(&edges)?;
        Ok(BytesAxis { numbers: edges })
    }
}

impl Axis for BytesAxis<'_> {
    ghost edges = { λ a. numbers_in a.numbers.bytes.now };

    ghost proper = { λ a. a.proper };

    fn cells(&self) -> usize {
        self.numbers.len() - 1
    }

    fn edge(&self, i: usize) -> i32 {
        self.numbers.number(i.min(self.numbers.len() - 1))
    }
}
