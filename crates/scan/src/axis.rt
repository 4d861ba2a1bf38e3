ghost use Rattle.std.specs.Prelude.{◌≡◌, List, ℤ};
ghost use Rattle.scan.specs.Axes.{Proper, cells_of, edge_of};

/// How many cells an axis may have.
pub const MOST_CELLS: usize = 512;

/// How many edges an axis may have.
pub const MOST_EDGES: usize = MOST_CELLS + 1;

/// The edges of the cells along one direction. Past the last edge the last one is answered.
pub trait Axis {
    ghost edges: { Self → List ℤ };

    /// The number of cells, which is one less than the number of edges.
    fn cells(&self) -> usize
        ensures { result ≡ cells_of (edges self.now) };

    /// The edge of a number.
    fn edge(&self, i: usize) -> i32
        ensures { result ≡ edge_of (edges self.now) i };

    ghost proper: { (axis : Self) → Proper (edges axis) };
}
