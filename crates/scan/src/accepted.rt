// What a draft is made of.
ghost use Rattle.scan.specs.Limits.{SourceClear, ColumnsNearer};

use crate::axis::Axis;
use geometry::distances::Distances;

/// Distances, and the axes that they go with: D is above twice every |edge| of x and y, and every column edge lies less
/// than F from 0.
#[derive(Drop)]
pub struct Accepted<'a, X: Axis, Y: Axis, C: Axis> {
    pub distances: Distances,
    pub x: &'a X,
    pub y: &'a Y,
    pub column: &'a C,
    ghost clear: { SourceClear distances.source (X.Axis.edges x.now) (Y.Axis.edges y.now) },
    ghost nearer: { ColumnsNearer distances.panel (C.Axis.edges column.now) },
}
