use crate::edges::LandedEdges;
use crate::strip::Line;
use geometry::stretch::Stretch;

// From voxels to cells, or from cells to voxels.
#[derive(Clone, Copy, PartialEq, Eq, Debug)]
pub(crate) enum Way {
    Forward,
    Back,
}

// One sweep of a view: what it reads, and the factor. What it writes to is passed beside it, with the clause `Sized`: a
// pass that lent the target too would have to promise in every function that takes it that all else in it stays. Keeping
// the source's length as a fact of the pass would still leave a clause for the target in each.
#[derive(Drop)]
pub(crate) struct Pass<'a, V, L> {
    pub(crate) view: &'a L,
    pub(crate) way: Way,
    pub(crate) factor: V,
    pub(crate) from: &'a [V],
}

// One slab: its voxels at the lowest height along the cross axis, how many places one height stands above another, and
// the landed edges of its heights.
#[derive(Clone, Copy)]
pub(crate) struct Slab<'a> {
    pub(crate) number: usize,
    pub(crate) lowest: Line<'a>,
    pub(crate) height_stride: usize,
    pub(crate) heights: LandedEdges<'a>,
}

// Some heights of the volume, one above another, which are swept together.
#[derive(Clone, Copy)]
pub(crate) struct Layer {
    pub(crate) first: usize,
    pub(crate) count: usize,
}

// Where the runs of a slab and a column begin: that of its voxels, and that of the rows over a layer's lowest height. They
// are where the search for the next column's runs begins, and any numbers would do.
#[derive(Clone, Copy)]
pub(crate) struct RunStarts {
    pub(crate) voxels: usize,
    pub(crate) rows: usize,
}

// One panel column: its cells, and its stretch of the common plane.
#[derive(Clone, Copy)]
pub(crate) struct Column<'a> {
    pub(crate) number: usize,
    pub(crate) cells: Line<'a>,
    pub(crate) over: Stretch,
}
