// A stretch of an axis.
ghost use Rattle.std.specs.Prelude.{◌≡◌, ◌-ℤ◌, ◌≤ℤ◌};
ghost use Rattle.std.specs.Int.{int_min, int_max};
ghost use Rattle.geometry.specs.Overlap.{or_zero, overlap, OverlapsAddUp, EitherWay};

/// What lies between two ends of an axis, the lower end first.
#[derive(Clone, Copy, PartialEq, Eq, Debug)]
pub struct Stretch {
    pub low: i64,
    pub high: i64,
    ghost ordered: { low ≤ℤ high },
}

// How far `top` lies above `low`, or 0 where it does not.
fn gap(low: i64, top: i64) -> u64
    ensures { result ≡ or_zero (top -ℤ low) }
{
    if low < top { top.abs_diff(low) } else { 0 }
}

impl Stretch {
    /// The stretch between two ends, which stand in either order.
    pub fn between(one: i64, other: i64) -> Stretch
        ensures low { result.low ≡ int_min one other }
        ensures high { result.high ≡ int_max one other }
    {
        Stretch {
            low: one.min(other),
            high: one.max(other),
        }
    }

    /// How far two stretches overlap. The overlaps of a stretch with stretches that follow one another one way add up to
    /// its overlap with the whole: nothing is lost or counted twice. Which end of a stretch comes first does not matter.
    /// Defined by `overlap` of specs/Overlap.
    pub fn overlap(self, other: Stretch) -> u64
        ensures value { result ≡ overlap self.low self.high other.low other.high }
        ensures conserved { OverlapsAddUp }
        ensures either_way { EitherWay }
    {
        gap(self.low.max(other.low), self.high.min(other.high))
    }
}

#[cfg(test)]
mod tests {
    use super::*;

    #[test]
    fn stretches_overlap_whichever_end_comes_first(rt: HostRuntime) {
        let stretch = Stretch::between(2, 7);
        assert_eq!(rt; stretch, Stretch::between(7, 2));
        assert_eq!(rt; stretch.overlap(Stretch::between(9, 4)), 3);
        assert_eq!(rt; stretch.overlap(Stretch::between(7, 9)), 0);
        assert_eq!(rt; stretch.overlap(Stretch::between(12, 9)), 0);
    }
}
