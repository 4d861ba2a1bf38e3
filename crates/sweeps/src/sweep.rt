ghost use Rattle.std.specs.Prelude.{◌+◌, ◌/◌, ◌%◌, ◌^◌, ◌≤◌, length};
ghost use Rattle.scan.specs.Landing.{weight};
ghost use Rattle.sweeps.specs.Passes.{Sized, Swept, block_weight};
ghost use Rattle.sweeps.specs.Tables.{Tabled};

use crate::block::Block;
use crate::pass::Pass;
use crate::table::filled;
use scan::axis::MOST_EDGES;
use scan::landed::Landed;
use values::value::Value;

// The columns of a block. The edges of each slab are computed once a block, so fewer columns cost more divisions; with more,
// a slab along x no longer stays in the processor's cache for the next, and the table of their row edges grows.
const BLOCK: usize = 32;

// The most row edges of a block.
const MOST_ROW_EDGES: usize = BLOCK * MOST_EDGES;

// The whole view: each target place gains the factor times the sum over all source places of the multiple by the weight.
pub(crate) fn sweep<V: Value, L: Landed>(pass: &Pass<'_, V, L>, to: &mut [V])
    requires { Sized (L.Landed.landing pass.now.view.now) pass.now (length to.old) }
    ensures { Swept V.Value.ops pass.now (weight (L.Landed.landing pass.now.view.now)) to.old to.new }
{
    let columns = pass.view.columns();
    for first in (0..columns).step_by(BLOCK) {
        sweep_block(pass, first, BLOCK.min(columns - first), to);
    }
}

// A block of columns, whose edges are computed once for all slabs, into tables of their numbers. Never inlined: a caller that
// sweeps values of two kinds would hold the tables of both at once on the stack.
#[inline(never)]
fn sweep_block<V: Value, L: Landed>(pass: &Pass<'_, V, L>, first: usize, count: usize, to: &mut [V])
    requires sized { Sized (L.Landed.landing pass.now.view.now) pass.now (length to.old) }
    requires below { first + count ≤ (L.Landed.landing pass.now.view.now).columns }
    requires few { count ≤ 32 }
    ensures { Swept V.Value.ops pass.now (block_weight (L.Landed.landing pass.now.view.now) first count) to.old to.new }
{
    let view = pass.view;
    // Arrays on the stack, since a sweep allocates nothing; row edges flat, so that one call fills those of all columns.
    let mut columns = [0i64; BLOCK + 1];
    let mut rows = [0i64; MOST_ROW_EDGES];
    let block = Block {
        pass,
        first,
        columns: column_edges(view, first, &mut columns[0..count + 1]),
        rows: row_edges(view, first, &mut rows[0..count * (view.rows() + 1)]),
    };
    block.sweep(to);
}

// A table of the edges S of the columns from `first` on.
fn column_edges<'a, L: Landed>(view: &L, first: usize, table: &'a mut [i64]) -> &'a [i64]
    requires { first + length table.old ≤ 2 ^ 64 }
    ensures { Tabled result.now (length table.old) (λ i. (L.Landed.landing view.now).S (first + i)) }
{
    filled(table, |i| view.column_edge(first + i))
}

// A table of the edges T in the columns from `first` on, column after column.
fn row_edges<'a, L: Landed>(view: &L, first: usize, table: &'a mut [i64]) -> &'a [i64]
    requires { first + length table.old ≤ 2 ^ 64 }
    ensures { Tabled result.now (length table.old) (λ i. (L.Landed.landing view.now).T (first + i / ((L.Landed.landing view.now).rows + 1)) (i % ((L.Landed.landing view.now).rows + 1))) }
{
    let width = view.rows() + 1;
    filled(table, |i| view.row_edge(first + i / width, i % width))
}
