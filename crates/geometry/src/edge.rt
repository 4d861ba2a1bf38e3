// An edge of a cell of an axis.
ghost use Rattle.std.specs.Prelude.{◌≤◌, unsigned_abs};

/// How far from 0 an edge may lie.
pub const FARTHEST_EDGE: u64 = 4_194_304;

/// Where an edge of an axis lies, in the unit that the user picks.
#[derive(Clone, Copy, PartialEq, Eq, Debug)]
pub struct Edge {
    pub at: i64,
    ghost within: { unsigned_abs at ≤ 4194304 },
}
