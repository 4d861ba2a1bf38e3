// A step of the turn.
ghost use Rattle.std.specs.Prelude.{◌≡◌, ◌<◌};

/// The number of steps of a whole turn.
pub const STEPS: usize = 64;

/// The last of the steps 0 to 63.
pub const LAST_STEP: i32 = 63;

/// One of the 64 equal steps of the turn table.
#[derive(Clone, Copy, PartialEq, Eq, Debug)]
pub struct Step {
    pub number: u8,
    ghost below: { number < 64 },
}

impl Default for Step {
    ghost is_default = { λ s. s.number ≡ 0 };

    fn default() -> Step {
        Step { number: 0 }
    }
}
