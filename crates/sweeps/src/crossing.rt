ghost use Rattle.std.specs.Prelude.{◌+◌, ◌*◌, ◌<◌, ◌≤◌, length};
ghost use Rattle.sweeps.specs.Strips.{strip_share};
ghost use Rattle.sweeps.specs.Passes.{Sized, Swept, Placed, height_weight, column_weight, SlabOf, ColumnOf, Meets, VoxelLine, CellLine};

use crate::carry::carry;
use crate::pass::{Column, Layer, Pass, Slab, Way};
use crate::strip::Strip;
use scan::landed::Landed;
use values::value::Value;

// Where a slab and a panel column meet in a pass, with the voxels of the slab over the column's stretch.
#[derive(Drop)]
pub(crate) struct Crossing<'a, V, L: Landed> {
    pub(crate) pass: &'a Pass<'a, V, L>,
    pub(crate) slab: Slab<'a>,
    pub(crate) column: Column<'a>,
    pub(crate) voxels: Strip<'a>,
    ghost slab_of: { SlabOf (L.Landed.landing pass.now.view.now) slab },
    ghost column_of: { ColumnOf (L.Landed.landing pass.now.view.now) column },
    ghost meets: { Meets slab column voxels },
}

impl<V: Value, L: Landed> Crossing<'_, V, L> {
    // Height after height of a layer. Answers where the run of rows over the lowest begins, for the next column.
    pub(crate) fn sweep(&self, layer: Layer, near: usize, to: &mut [V]) -> usize
        requires sized { Sized (L.Landed.landing self.now.pass.now.view.now) self.now.pass.now (length to.old) }
        requires layer { layer.first + layer.count ≤ (L.Landed.landing self.now.pass.now.view.now).heights }
        ensures { Swept V.Value.ops self.now.pass.now (column_weight (L.Landed.landing self.now.pass.now.view.now) self.now.slab.number self.now.column.number layer.first layer.count) to.old to.new }
    {
        let rows = self.column.cells.edges;
        let lowest = rows.run_start(self.slab.heights.at[layer.first], near);
        let mut near = lowest;
        for offset in 0..layer.count {
            near = self.sweep_height(layer.first + offset, near, to);
        }
        lowest
    }

    // Carries what one line of voxels and the column exchange. Answers where the run of rows begins, for the next height.
    fn sweep_height(&self, height: usize, near: usize, to: &mut [V]) -> usize
        requires sized { Sized (L.Landed.landing self.now.pass.now.view.now) self.now.pass.now (length to.old) }
        requires height { height < (L.Landed.landing self.now.pass.now.view.now).heights }
        ensures { Swept V.Value.ops self.now.pass.now (height_weight (L.Landed.landing self.now.pass.now.view.now) self.now.slab.number self.now.column.number height) to.old to.new }
    {
        let cells = self.cells_at(height, near);
        if cells.first < cells.last {
            exchange(self.pass, self.voxels_at(height), cells, to);
        }
        cells.first
    }

    // The voxels of the slab at a height, over the column's stretch.
    fn voxels_at(&self, height: usize) -> Strip<'_>
        requires { height < (L.Landed.landing self.now.pass.now.view.now).heights }
        ensures { VoxelLine self.now.slab self.now.column height result }
    {
        self.voxels
            .moved(self.slab.lowest.start + height * self.slab.height_stride)
    }

    // The cells of the column over the stretch of a height.
    fn cells_at(&self, height: usize, near: usize) -> Strip<'_>
        requires { height < (L.Landed.landing self.now.pass.now.view.now).heights }
        ensures { CellLine self.now.slab self.now.column height result }
    {
        self.column
            .cells
            .over(self.slab.heights.stretch(height), near)
    }
}

// Carries from the voxels of a line to the cells of a column, or from the cells to the voxels.
fn exchange<V: Value, L>(pass: &Pass<'_, V, L>, voxels: Strip<'_>, cells: Strip<'_>, to: &mut [V])
    requires { Placed pass.now.way voxels cells (length pass.now.from.now) (length to.old) }
    ensures { Swept V.Value.ops pass.now (λ x c. strip_share voxels.entry x * strip_share cells.entry c) to.old to.new }
{
    // No closure: the way is a case of the pass, which says which strip is read and what the weights' order is.
    match pass.way {
        Way::Forward => carry(pass.factor, pass.from, voxels, to, cells),
        Way::Back => carry(pass.factor, pass.from, cells, to, voxels),
    }
}
