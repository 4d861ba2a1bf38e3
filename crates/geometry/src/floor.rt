// Division that rounds down.
ghost use Rattle.std.specs.Prelude.{◌≡◌, ◌^◌, ◌<◌, unsigned_abs};
ghost use Rattle.geometry.specs.Floor.{floor_div, Floor};

// n / d rounded down, and 0 where d is 0, for all 64-bit numbers but the least, −2^63, whose negative does not fit.
pub(crate) fn floor_div(n: i64, d: i64) -> i64
    requires dividend { unsigned_abs n < 2 ^ 63 }
    requires divisor { unsigned_abs d < 2 ^ 63 }
    ensures value { result ≡ floor_div n d }
    ensures floor { 0 < unsigned_abs d → Floor n d result }
{
    if 0 < d {
        n.div_euclid(d)
    } else if d < 0 {
        // The remainder of `div_euclid` is never below 0, so the sign goes to the dividend first.
        (-n).div_euclid(-d)
    } else {
        0
    }
}
