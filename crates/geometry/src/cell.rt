// A cell of an axis.
use crate::edge::Edge;

/// The two edges of a cell.
#[derive(Clone, Copy, PartialEq, Eq, Debug)]
pub struct Cell {
    pub low: Edge,
    pub high: Edge,
}
