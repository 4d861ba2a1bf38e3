// The heading of a view: its direction as a cosine and a sine.
ghost use Rattle.std.specs.Prelude.{◌≡◌};
ghost use Rattle.geometry.specs.Circle.{off_circle, is_accepted};
ghost use Rattle.geometry.specs.Directions.{DirectionOf};

use crate::direction::{Direction, R, SlabAxis};

// R², the 2^28 near which c² + s² of an accepted heading lies.
const CIRCLE: u64 = (R * R) as u64;

// By how much it may be off.
const MOST_OFF_CIRCLE: u64 = 32_768;

/// A direction as the cosine c and the sine s of its angle, counted counter-clockwise from the y axis, in 16384ths. They may be
/// any two numbers; `is_accepted` says whether they lie near enough to the circle.
#[derive(Clone, Copy, PartialEq, Eq, Debug, Default)]
pub struct Heading {
    pub c: i32,
    pub s: i32,
}

impl Heading {
    // By how much c² + s² differs from 2^28. The squares are of sizes, since those of c = s = −2^31 add up to 2^63.
    fn off_circle(self) -> u64
        ensures { result ≡ off_circle self.s self.c }
    {
        let c = u64::from(self.c.unsigned_abs());
        let s = u64::from(self.s.unsigned_abs());
        (c * c + s * s).abs_diff(CIRCLE)
    }

    /// Whether c² + s² differs from 2^28 by at most 32,768. Defined by `is_accepted` of specs/Circle.
    pub fn is_accepted(self) -> bool
        ensures { result ≡ is_accepted self }
    {
        self.off_circle() <= MOST_OFF_CIRCLE
    }

    /// The slab axis of an accepted heading, and the a and b that go with it, in 16384ths; none of another. Defined by
    /// `DirectionOf` of specs/Directions.
    pub fn direction(self) -> Option<Direction>
        ensures { DirectionOf self result }
    {
        if !self.is_accepted() {
            return None;
        }
        let (s, c) = (i64::from(self.s), i64::from(self.c));
        if s.unsigned_abs() <= c.unsigned_abs() {
            Some(Direction {
                slabs: SlabAxis::Y,
                a: c,
                b: s,
            })
        } else {
            Some(Direction {
                slabs: SlabAxis::X,
                a: s,
                b: -c,
            })
        }
    }
}

#[cfg(test)]
mod tests {
    use super::*;

    fn heading((c, s): (i32, i32)) -> Heading {
        Heading { c, s }
    }

    const LEAST: i32 = -2_147_483_648;

    // The nearest sums of squares on both sides of both limits: 2^28 - 32,767, + 32,762, - 32,771 and + 32,769.
    #[test]
    fn headings_near_the_circle_are_accepted(rt: HostRuntime) {
        for pair in [(0, 16_383), (8187, 14_193), (16_384, -181)] {
            assert!(rt; heading(pair).is_accepted(), "{pair:?}");
        }
        let off = [
            (181, 16_382),
            (0, 16_385),
            (16_385, 0),
            (278_528, 0),
            (0, 0),
            (LEAST, LEAST),
        ];
        for pair in off {
            assert!(rt; !heading(pair).is_accepted(), "{pair:?}");
            assert_eq!(rt; heading(pair).direction(), None, "{pair:?}");
        }
    }

    #[test]
    fn slabs_lie_along_y_at_ties(rt: HostRuntime) {
        let cases = [
            ((11_585, 11_585), SlabAxis::Y, 11_585, 11_585),
            ((-11_585, 11_585), SlabAxis::Y, -11_585, 11_585),
            ((-11_585, -11_585), SlabAxis::Y, -11_585, -11_585),
            ((11_585, -11_585), SlabAxis::Y, 11_585, -11_585),
            ((11_586, 11_584), SlabAxis::Y, 11_586, 11_584),
            ((11_584, 11_586), SlabAxis::X, 11_586, -11_584),
            ((181, -16_384), SlabAxis::X, -16_384, -181),
        ];
        for (pair, slabs, a, b) in cases {
            let told = heading(pair)
                .direction()
                .map(|direction| (direction.slabs, direction.a, direction.b));
            assert_eq!(rt; told, Some((slabs, a, b)), "{pair:?}");
        }
    }
}
