// The turn table: the heading of each of its steps.
ghost use Rattle.std.specs.Prelude.{◌≡◌, ◌<◌, ◌≤◌, unsigned_abs};
ghost use Rattle.geometry.specs.Turn.{sine, sin_of, cos_of, CircleRule};

use crate::heading::Heading;
use crate::step::Step;

// The steps of a quarter turn.
const QUARTER: usize = 16;

// The sines of the steps of a quarter turn, and of its end.
const SINES: [i32; 17] = [
    0, 1606, 3196, 4756, 6270, 7723, 9102, 10394, 11585, 12665, 13623, 14449, 15137, 15679, 16069,
    16305, 16384,
];

#[tactic(auto, unfolding(crate::specs::Turn::sine))]
fn sine_of(r: usize) -> i32
    requires { r < 17 }
    ensures value { result ≡ sine r }
    ensures within { unsigned_abs result ≤ 16384 }
{
    SINES[r]
}

/// The sine and the cosine of a step, counted counter-clockwise from the y axis, in 16384ths. Defined by `sin_of` and
/// `cos_of` of specs/Turn.
pub fn heading(step: Step) -> Heading
    ensures sin { result.s ≡ sin_of step.number }
    ensures cos { result.c ≡ cos_of step.number }
    ensures round { CircleRule result.s result.c }
{
    let number = usize::from(step.number);
    let up = sine_of(number % QUARTER);
    let down = sine_of(QUARTER - number % QUARTER);
    let quarters = [
        Heading { s: up, c: down },
        Heading { s: down, c: -up },
        Heading { s: -up, c: -down },
        Heading { s: -down, c: up },
    ];
    quarters[number / QUARTER]
}
