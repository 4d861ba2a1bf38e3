// An axis whose edges are listed.
ghost use Rattle.std.specs.Prelude.{◌≡◌};
ghost use Rattle.scan.specs.Axes.{Proper, edge_of, low_of, high_of};
ghost use Rattle.scan.specs.Verdicts.{Verdict};
ghost use Rattle.scan.specs.AxisChecks.{listed_check};

use crate::axis::{Axis, MOST_EDGES};
use crate::edges::{Edges, check_listed};
use crate::refusal::Refusal;
use arrayvec::ArrayVec;
use geometry::cell::Cell;
use geometry::edge::Edge;

impl Edges for &[i32] {
    ghost edges = { λ s. s.now };

    fn count(&self) -> usize {
        self.len()
    }

    fn get(&self, i: usize) -> i64 {
        let edges = *self;
        if i < edges.len() {
            i64::from(edges[i])
        } else {
            0
        }
    }
}

// The edges of any axis, listed.
fn edges_of<A: Axis>(axis: &A) -> ArrayVec<i32, MOST_EDGES>
    ensures { result.items ≡ A.edges axis.now }
{
    let mut edges = ArrayVec::new();
    for i in 0..axis.cells() + 1 {
        edges.push(axis.edge(i));
    }
    edges
}

/// An axis whose edges are listed.
#[derive(Drop)]
pub struct ListedAxis {
    pub(crate) edges: ArrayVec<i32, MOST_EDGES>,
    ghost proper: { Proper edges.items },
}

impl ListedAxis {
    /// The axis of these 2 to 513 edges, in the user's unit. Checks 2, 5, 4, by `listed_check` of specs/AxisChecks.
    pub fn new(edges: &[i32]) -> Result<ListedAxis, Refusal>
        ensures { Verdict (listed_check edges.now) (λ a. ⟦<ListedAxis as Axis>⟧.edges a ≡ edges.now) result }
    {
        check_listed(&edges)?;
        let Ok(edges) = ArrayVec::try_from(edges) else {
            unreachable!();
        };
        Ok(ListedAxis { edges })
    }

    // The axis of the edges of any axis.
    pub(crate) fn copy_of<A: Axis>(axis: &A) -> ListedAxis
        ensures { result.edges.items ≡ A.edges axis.now }
    {
        ListedAxis {
            edges: edges_of(axis),
        }
    }

    // The edge of a number, where a number past the last stands for the last.
    pub(crate) fn edge_at(&self, i: usize) -> Edge
        ensures { result.at ≡ edge_of self.now.edges.items i }
    {
        Edge {
            at: i64::from(self.edge(i)),
        }
    }

    // The cell of a number, where a number past the last stands for the last.
    pub(crate) fn cell_at(&self, j: usize) -> Cell
        ensures low { result.low.at ≡ low_of self.now.edges.items j }
        ensures high { result.high.at ≡ high_of self.now.edges.items j }
    {
        let j = j.min(self.cells() - 1);
        Cell {
            low: self.edge_at(j),
            high: self.edge_at(j + 1),
        }
    }
}

impl Axis for ListedAxis {
    ghost edges = { λ a. a.edges.items };

    ghost proper = { λ a. a.proper };

    fn cells(&self) -> usize {
        self.edges.len() - 1
    }

    fn edge(&self, i: usize) -> i32 {
        self.edges[i.min(self.edges.len() - 1)]
    }
}
