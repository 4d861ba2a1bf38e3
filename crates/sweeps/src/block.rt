ghost use Rattle.std.specs.Prelude.{◌≡◌, ◌+◌, ◌-◌, ◌<◌, ◌≤◌, length};
ghost use Rattle.sweeps.specs.Passes.{Sized, Swept, column_weight, layer_weight, slab_weight, block_weight, slab_start, slab_stride, height_stride, SlabOf, ColumnOf, BlockOf};

use crate::crossing::Crossing;
use crate::edges::LandedEdges;
use crate::pass::{Column, Layer, Pass, RunStarts, Slab};
use crate::strip::Line;
use geometry::direction::SlabAxis;
use geometry::stretch::Stretch;
use scan::axis::MOST_EDGES;
use scan::landed::Landed;
use values::value::Value;

// The heights of a layer: of so few the voxels that one column has read are still in the processor's cache for the next,
// which meets most of them again.
const LAYER: usize = 32;

// Some columns of a view side by side, from `first` on: their landed edges, and those of the rows in each, column after column.
#[derive(Drop)]
pub(crate) struct Block<'a, V, L: Landed> {
    pub(crate) pass: &'a Pass<'a, V, L>,
    pub(crate) first: usize,
    pub(crate) columns: &'a [i64],
    pub(crate) rows: &'a [i64],
    ghost tables: { BlockOf (L.Landed.landing pass.now.view.now) first (length columns.now - 1) columns.now rows.now },
}

impl<'a, V: Value, L: Landed> Block<'a, V, L> {
    // Slab after slab.
    pub(crate) fn sweep(&self, to: &mut [V])
        requires { Sized (L.Landed.landing self.now.pass.now.view.now) self.now.pass.now (length to.old) }
        ensures { Swept V.Value.ops self.now.pass.now (block_weight (L.Landed.landing self.now.pass.now.view.now) self.now.first (length self.now.columns.now - 1)) to.old to.new }
    {
        let mut near = RunStarts { voxels: 0, rows: 0 };
        for number in 0..self.pass.view.slabs() {
            near = self.sweep_slab(number, near, to);
        }
    }

    // One slab: its edges are computed once for the block, into tables of their numbers.
    fn sweep_slab(&self, number: usize, near: RunStarts, to: &mut [V]) -> RunStarts
        requires sized { Sized (L.Landed.landing self.now.pass.now.view.now) self.now.pass.now (length to.old) }
        requires number { number < (L.Landed.landing self.now.pass.now.view.now).slabs }
        ensures { Swept V.Value.ops self.now.pass.now (slab_weight (L.Landed.landing self.now.pass.now.view.now) self.now.first (length self.now.columns.now - 1) number) to.old to.new }
    {
        let view = self.pass.view;
        // Arrays on the stack: a sweep allocates nothing.
        let mut crosses = [0i64; MOST_EDGES];
        let mut heights = [0i64; MOST_EDGES];
        let crosses = LandedEdges::filled(&mut crosses[0..view.crosses() + 1], |i| {
            view.cross_edge(number, i)
        });
        let heights = LandedEdges::filled(&mut heights[0..view.heights() + 1], |i| {
            view.height_edge(number, i)
        });
        self.sweep_heights(slab_of(view, number, crosses, heights), near, to)
    }

    // Layer after layer, the lowest first.
    fn sweep_heights(&self, slab: Slab<'_>, near: RunStarts, to: &mut [V]) -> RunStarts
        requires sized { Sized (L.Landed.landing self.now.pass.now.view.now) self.now.pass.now (length to.old) }
        requires slab { SlabOf (L.Landed.landing self.now.pass.now.view.now) slab }
        ensures { Swept V.Value.ops self.now.pass.now (slab_weight (L.Landed.landing self.now.pass.now.view.now) self.now.first (length self.now.columns.now - 1) slab.entry.number) to.old to.new }
    {
        let heights = slab.heights.cells();
        let mut near = near;
        for first in (0..heights).step_by(LAYER) {
            let layer = Layer {
                first,
                count: LAYER.min(heights - first),
            };
            near = self.sweep_columns(slab, layer, near, to);
        }
        near
    }

    // Column after column. The runs found for one are where the next one's search begins.
    fn sweep_columns(
        &self,
        slab: Slab<'_>,
        layer: Layer,
        near: RunStarts,
        to: &mut [V],
    ) -> RunStarts
        requires sized { Sized (L.Landed.landing self.now.pass.now.view.now) self.now.pass.now (length to.old) }
        requires slab { SlabOf (L.Landed.landing self.now.pass.now.view.now) slab }
        requires layer { layer.first + layer.count ≤ (L.Landed.landing self.now.pass.now.view.now).heights }
        ensures { Swept V.Value.ops self.now.pass.now (layer_weight (L.Landed.landing self.now.pass.now.view.now) self.now.first (length self.now.columns.now - 1) slab.entry.number layer.first layer.count) to.old to.new }
    {
        let mut near = near;
        for offset in 0..self.columns.len() - 1 {
            near = sweep_column(self.pass, slab, layer, self.column(offset), near, to);
        }
        near
    }

    // A column by its number in the block.
    fn column(&self, offset: usize) -> Column<'a>
        requires { offset < length self.now.columns.now - 1 }
        ensures number { result.number ≡ self.now.first + offset }
        ensures column { ColumnOf (L.Landed.landing self.now.pass.now.view.now) result }
    {
        let view = self.pass.view;
        let width = view.rows() + 1;
        let start = offset * width;
        let rows = LandedEdges {
            at: &self.rows[start..start + width],
        };
        Column {
            number: self.first + offset,
            cells: Line {
                start: self.first + offset,
                stride: view.columns(),
                edges: rows,
            },
            over: Stretch::between(self.columns[offset], self.columns[offset + 1]),
        }
    }
}

// One layer of one slab, and one column. Answers where their runs begin, for the next column.
fn sweep_column<V: Value, L: Landed>(
    pass: &Pass<'_, V, L>,
    slab: Slab<'_>,
    layer: Layer,
    column: Column<'_>,
    near: RunStarts,
    to: &mut [V],
) -> RunStarts
    requires sized { Sized (L.Landed.landing pass.now.view.now) pass.now (length to.old) }
    requires slab { SlabOf (L.Landed.landing pass.now.view.now) slab }
    requires layer { layer.first + layer.count ≤ (L.Landed.landing pass.now.view.now).heights }
    requires column { ColumnOf (L.Landed.landing pass.now.view.now) column }
    ensures { Swept V.Value.ops pass.now (column_weight (L.Landed.landing pass.now.view.now) slab.entry.number column.entry.number layer.first layer.count) to.old to.new }
{
    let voxels = slab.lowest.over(column.over, near.voxels);
    let mut rows = near.rows;
    if voxels.first < voxels.last {
        let crossing = Crossing {
            pass,
            slab,
            column,
            voxels,
        };
        rows = crossing.sweep(layer, rows, to);
    }
    RunStarts {
        voxels: voxels.first,
        rows,
    }
}

// Where the voxels of a slab stand, with its edges.
fn slab_of<'a, L: Landed>(
    view: &L,
    number: usize,
    crosses: LandedEdges<'a>,
    heights: LandedEdges<'a>,
) -> Slab<'a>
    requires { number < (L.Landed.landing view.now).slabs }
    ensures number { result.number ≡ number }
    ensures start { result.lowest.start ≡ slab_start (L.Landed.landing view.now) number }
    ensures stride { result.lowest.stride ≡ slab_stride (L.Landed.landing view.now) }
    ensures height_stride { result.height_stride ≡ height_stride (L.Landed.landing view.now) }
    ensures crosses { result.lowest.edges ≡ crosses.entry }
    ensures heights { result.heights ≡ heights.entry }
{
    let slabs = view.slabs();
    let across = view.crosses();
    let (start, stride) = match view.along() {
        SlabAxis::X => (number, slabs),
        SlabAxis::Y => (number * across, 1),
    };
    Slab {
        number,
        lowest: Line {
            start,
            stride,
            edges: crosses,
        },
        height_stride: slabs * across,
        heights,
    }
}
