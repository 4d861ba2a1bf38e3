// A sealed scan, which never changes.
ghost use Rattle.std.specs.Prelude.{◌≡◌, ◌≤◌, length};
ghost use Rattle.scan.specs.Axes.{cells_of};
ghost use Rattle.scan.specs.Scans.{edges_along, voxels_of, panel_cells_of, places_of};
ghost use Rattle.scan.specs.Meanings.{plan_of};

use crate::axis::Axis;
use crate::layout::Layout;
use crate::scan_axis::ScanAxis;

/// How many views a draft or a plan may have.
pub const MOST_VIEWS: usize = 1024;

/// A sealed scan: it takes no more views, and can be swept.
#[derive(Drop)]
pub struct Plan {
    pub(crate) layout: Layout,
}

impl Plan {
    /// The number of views, at most 1,024.
    pub fn views(&self) -> usize
        ensures value { result ≡ length (plan_of self.now).steps }
        ensures most { result ≤ 1024 }
    {
        self.layout.views()
    }

    /// The number of cells of an axis, 1 to 512. Defined by `edges_along` of specs/Scans.
    pub fn cells_along(&self, axis: ScanAxis) -> usize
        ensures value { result ≡ cells_of (edges_along (plan_of self.now) axis) }
        ensures least { 1 ≤ result }
        ensures most { result ≤ 512 }
    {
        self.layout.axis(axis).cells()
    }

    /// The number of voxels, which a volume store has as its length: with nx, ny, nz cells along x, y, z, voxel (i, j, l)
    /// stands at place (l·ny + j)·nx + i. Defined by `voxels_of` of specs/Scans.
    pub fn voxels(&self) -> usize
        ensures value { result ≡ voxels_of (plan_of self.now) }
        ensures most { result ≤ 134217728 }
    {
        self.cells_along(ScanAxis::Z)
            * self.cells_along(ScanAxis::Y)
            * self.cells_along(ScanAxis::X)
    }

    /// The number of panel cells in one view: rows times columns. Defined by `panel_cells_of` of specs/Scans.
    pub fn cells(&self) -> usize
        ensures value { result ≡ panel_cells_of (plan_of self.now) }
        ensures most { result ≤ 262144 }
    {
        self.cells_along(ScanAxis::Row) * self.cells_along(ScanAxis::Column)
    }

    /// The number of panel cells over all views, which a measured or working store has as its length: row m and column k
    /// of view v stand at place (v·rows + m)·columns + k. Defined by `places_of` of specs/Scans.
    pub fn places(&self) -> usize
        ensures value { result ≡ places_of (plan_of self.now) }
        ensures most { result ≤ 268435456 }
    {
        self.views() * self.cells()
    }
}
