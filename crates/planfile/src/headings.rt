// Numbers as headings.
ghost use Rattle.planfile.specs.Numbers.{numbers_in};
ghost use Rattle.planfile.specs.Pairs.{headings_in};

use crate::numbers::Numbers;
use geometry::heading::Heading;
use scan::directions::Headings;

/// Numbers taken two by two: c, and then s. A number that is left over is left out.
impl Headings for Numbers<'_> {
    ghost headings = { λ numbers. headings_in (numbers_in numbers.bytes.now) };

    fn count(&self) -> usize {
        self.len() / 2
    }

    fn heading(&self, i: usize) -> Heading {
        if i < self.len() / 2 {
            Heading {
                c: self.number(2 * i),
                s: self.number(2 * i + 1),
            }
        } else {
            Heading { c: 0, s: 0 }
        }
    }
}
