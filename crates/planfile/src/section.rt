ghost use Rattle.std.specs.Prelude.{◌≡◌, ◌<◌, ◌^◌};
ghost use Rattle.scan.specs.Refusals.{place};
ghost use Rattle.planfile.specs.Sections.{place_of};

use crate::numbers::Numbers;
use crate::placed::Placed;
use scan::refusal::Refusal;

// Where a section begins, and its numbers.
#[derive(Clone, Copy)]
pub(crate) struct Section<'a> {
    pub(crate) start: usize,
    pub(crate) numbers: Numbers<'a>,
}

// A refusal of a number of the section that begins at a place.
pub(crate) fn refused_number(start: usize, i: usize, refusal: Refusal) -> Placed
    requires { place_of start i < 2 ^ 64 }
    ensures refusal { result.refusal ≡ refusal }
    ensures place { result.place ≡ place_of start i }
{
    Placed {
        refusal,
        place: start + 4 + 4 * i,
    }
}
