// Lists of directions.
ghost use Rattle.std.specs.Prelude.{◌≡◌, ◌<◌, length, List, IfSome};
ghost use Rattle.geometry.specs.declared.heading.Heading.{Heading};
ghost use Rattle.scan.specs.ViewDirections.{AllAccepted, direction_count, heading_or_zero};
ghost use Rattle.scan.specs.Verdicts.{Verdict};
ghost use Rattle.scan.specs.DraftChecks.{first_off_circle, directions_check};

use crate::edges::check_count;
use crate::refusal::Refusal;
use geometry::heading::Heading;
use geometry::step::STEPS;

/// How many directions a list may have.
pub const MOST_DIRECTIONS: usize = 1024;

/// Headings by number, of which nothing is known yet. A heading is a direction as its c and s.
pub trait Headings {
    ghost headings: { Self → List Heading };

    /// How many there are.
    fn count(&self) -> usize
        ensures { result ≡ length (headings self.now) };

    /// Heading i; past the last, one whose c and s are 0.
    fn heading(&self, i: usize) -> Heading
        ensures { result ≡ heading_or_zero (headings self.now) i };
}

impl Headings for &[Heading] {
    ghost headings = { λ s. s.now };

    fn count(&self) -> usize {
        self.len()
    }

    fn heading(&self, i: usize) -> Heading {
        let headings = *self;
        if i < headings.len() {
            headings[i]
        } else {
            Heading { c: 0, s: 0 }
        }
    }
}

/// A list of directions that a draft can have: at most 1,024 headings, each accepted. An empty one stands for the turn table.
#[derive(Drop)]
pub struct Directions<'a, H: Headings> {
    pub headings: &'a H,
    ghost accepted: { AllAccepted (H.Headings.headings headings.now) },
}

/// How many directions there are, of which a step is one, where a list has so many: the 64 of the turn table where it is empty.
/// Defined by `direction_count` of specs/ViewDirections.
pub fn direction_count(listed: usize) -> usize
    ensures { result ≡ direction_count listed }
{
    match listed {
        0 => STEPS,
        _ => listed,
    }
}

/// The first heading that is not accepted. Defined by `first_off_circle` of specs/DraftChecks.
pub fn first_off_circle<H: Headings>(headings: &H) -> Option<usize>
    ensures value { result ≡ first_off_circle (H.headings headings.now) }
    ensures within { IfSome result (λ i. i < length (H.headings headings.now)) }
{
    (0..headings.count()).find(|&i| !headings.heading(i).is_accepted())
}

impl<'a, H: Headings> Directions<'a, H> {
    /// The directions of 1 to 1,024 headings, which are not copied. Checks 2, 11, by `directions_check` of specs/DraftChecks.
    pub fn new(headings: &'a H) -> Result<Directions<'a, H>, Refusal>
        ensures { Verdict (directions_check (H.Headings.headings headings.now)) (λ d. H.Headings.headings d.headings.now ≡ H.Headings.headings headings.now) result }
    {
        check_count(headings.count(), 1, MOST_DIRECTIONS)?;
        if let Some(direction) = first_off_circle(headings) {
            let heading = headings.heading(direction);
            return Err(Refusal::OffCircle { direction, heading });
        }
        Ok(Directions { headings })
    }
}
