// Division to the nearest whole number.
ghost use Rattle.std.specs.Prelude.{◌≡◌, ◌^◌, ◌≤◌, unsigned_abs};
ghost use Rattle.geometry.specs.Nearest.{nearest};

use crate::floor::floor_div;

// The whole number nearest to n / d, halves away from zero, and 0 where d is 0. Half of |d| is added to |n|, since twice n
// might not fit.
pub(crate) fn nearest(n: i64, d: i64) -> i64
    requires dividend { unsigned_abs n ≤ 2 ^ 62 }
    requires divisor { unsigned_abs d ≤ 2 ^ 62 }
    ensures { result ≡ nearest n d }
{
    let size = floor_div(n.abs() + d.abs() / 2, d.abs());
    if (n < 0) == (d < 0) { size } else { -size }
}

#[cfg(test)]
mod tests {
    use super::*;

    #[test]
    fn halves_go_away_from_zero(rt: HostRuntime) {
        assert_eq!(rt; [nearest(1, 2), nearest(3, 2), nearest(5, 2)], [1, 2, 3]);
        assert_eq!(rt;
            [nearest(-1, 2), nearest(1, -2), nearest(-1, -2)],
            [-1, -1, 1]
        );
    }

    #[test]
    fn what_is_no_half_goes_to_the_nearest(rt: HostRuntime) {
        assert_eq!(rt; [nearest(3, 7), nearest(4, 7), nearest(0, -7)], [0, 1, 0]);
        assert_eq!(rt;
            [nearest(-4, 7), nearest(4, -7), nearest(-4, -7)],
            [-1, -1, 1]
        );
        assert_eq!(rt; nearest(9, 0), 0);
    }

    // 2^62, of which twice does not fit.
    #[test]
    fn the_greatest_dividend_fits(rt: HostRuntime) {
        let most = 4_611_686_018_427_387_904;
        assert_eq!(rt;
            [nearest(most, 1), nearest(-most, 3)],
            [most, -1537228672809129301]
        );
        assert_eq!(rt; [nearest(most, -most), nearest(-most, most - 1)], [-1, -1]);
    }
}
