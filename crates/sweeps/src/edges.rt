ghost use Rattle.std.specs.Prelude.{◌≡◌, ℕ, ◌+◌, ◌-◌, ◌<◌, ◌≤◌, length, ℤ, pos, ◌≤ℤ◌, ◌<ℤ◌, slice_index_or};
ghost use Rattle.sweeps.specs.Runs.{Rising};

use crate::table::filled;
use geometry::stretch::Stretch;

// The landed edges of cells side by side, at least one edge, which never go down.
#[derive(Clone, Copy)]
pub(crate) struct LandedEdges<'a> {
    pub(crate) at: &'a [i64],
    ghost some: { 0 < length at.now },
    ghost rises: { Rising at.now },
}

impl<'a> LandedEdges<'a> {
    // The edges of a table, each computed once.
    pub(crate) fn filled<F: Fn(usize) -> i64>(table: &'a mut [i64], edge: F) -> LandedEdges<'a>
        requires callable { (i : ℕ) → i < length table.old → F.pre edge i }
        requires some { 0 < length table.old }
        requires rises { (i : ℕ) (v w : ℤ) → i + 1 < length table.old → F.post edge i v → F.post edge (i + 1) w → v ≤ℤ w }
        ensures length { length result.at.now ≡ length table.old }
        ensures edges { (i : ℕ) → i < length result.at.now → F.post edge i (slice_index_or result.at.now i (pos 0)) }
    {
        LandedEdges {
            at: filled(table, edge),
        }
    }

    // The number of cells.
    pub(crate) fn cells(self) -> usize
        ensures { result ≡ length self.entry.at.now - 1 }
    {
        self.at.len() - 1
    }

    // The stretch of a cell.
    pub(crate) fn stretch(self, cell: usize) -> Stretch
        requires { cell < length self.at.now - 1 }
        ensures low { result.low ≡ slice_index_or self.entry.at.now cell (pos 0) }
        ensures high { result.high ≡ slice_index_or self.entry.at.now (cell + 1) (pos 0) }
    {
        Stretch {
            low: self.at[cell],
            high: self.at[cell + 1],
        }
    }

    // The three searches go edge by edge from a guess, as the run sought lies near it. `partition_point`, which halves, was
    // tried: a sweep takes about twice the time. That a result lies among the edges is what each promises of its own.

    // From `near` down, the first edge that is not above `low`, or edge 0. A number past the last stands for the last.
    fn stepped_down(self, low: i64, near: usize) -> usize
        ensures bound { result < length self.entry.at.now }
        ensures below { 0 < result → slice_index_or self.entry.at.now result (pos 0) ≤ℤ low }
    {
        let edges = self.at;
        (1..near.min(edges.len() - 1) + 1)
            .rev()
            .find(|edge| edges[*edge] <= low)
            .unwrap_or(0)
    }

    // From `start` up, the first cell whose upper edge lies above `low`, or the number of cells.
    fn stepped_up(self, low: i64, start: usize) -> usize
        requires { start < length self.at.now }
        ensures bound { (start ≤ result) × (result < length self.entry.at.now) }
        ensures passed { (i : ℕ) → start ≤ i → i < result → slice_index_or self.entry.at.now (i + 1) (pos 0) ≤ℤ low }
        ensures met { result + 1 < length self.entry.at.now → low <ℤ slice_index_or self.entry.at.now (result + 1) (pos 0) }
    {
        let edges = self.at;
        let cells = edges.len() - 1;
        (start..cells)
            .find(|cell| low < edges[*cell + 1])
            .unwrap_or(cells)
    }

    // From `start` up, the first cell whose lower edge is not below `high`, or the number of cells. It and `stepped_up` are
    // not one search that is given a test: each is one chain, and promises another thing.
    pub(crate) fn run_end(self, high: i64, start: usize) -> usize
        requires { start < length self.at.now }
        ensures bound { (start ≤ result) × (result < length self.entry.at.now) }
        ensures beyond { result + 1 < length self.entry.at.now → high ≤ℤ slice_index_or self.entry.at.now result (pos 0) }
        ensures before { (i : ℕ) → start ≤ i → i < result → slice_index_or self.entry.at.now i (pos 0) <ℤ high }
    {
        let edges = self.at;
        let cells = edges.len() - 1;
        (start..cells)
            .find(|cell| high <= edges[*cell])
            .unwrap_or(cells)
    }

    // From `near` on, whichever way, the first cell whose upper edge lies above `low`, or the number of cells.
    pub(crate) fn run_start(self, low: i64, near: usize) -> usize
        ensures bound { result < length self.entry.at.now }
        ensures passed { (i : ℕ) → i < result → slice_index_or self.entry.at.now (i + 1) (pos 0) ≤ℤ low }
        ensures met { result + 1 < length self.entry.at.now → low <ℤ slice_index_or self.entry.at.now (result + 1) (pos 0) }
    {
        self.stepped_up(low, self.stepped_down(low, near))
    }
}
