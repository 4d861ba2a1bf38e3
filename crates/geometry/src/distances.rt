// How far the source stands from the rotation axis and from the panel.
ghost use Rattle.geometry.specs.Admitted.{Admitted};

/// How far the source may stand from the rotation axis.
pub const FARTHEST_SOURCE: i64 = 16_777_216;

/// How far the panel may stand from the source.
pub const FARTHEST_PANEL: i64 = 33_554_432;

/// From the source to the rotation axis, and from the source to the panel, which stands no nearer.
#[derive(Clone, Copy, PartialEq, Eq, Debug)]
pub struct Distances {
    pub source: i64,
    pub panel: i64,
    ghost admitted: { Admitted source panel },
}
