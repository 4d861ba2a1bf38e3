// An axis whose cells are all as wide.
ghost use Rattle.std.specs.Prelude.{◌≡◌, ◌+◌, ◌<◌, ◌≤◌};
ghost use Rattle.scan.specs.Axes.{Proper, even_edge, even_edges};
ghost use Rattle.scan.specs.Verdicts.{Verdict};
ghost use Rattle.scan.specs.AxisChecks.{even_check};

use crate::axis::{Axis, MOST_CELLS};
use crate::edges::{Edges, check_count, check_edges};
use crate::refusal::Refusal;

// Edges one pitch apart, of few enough cells.
#[derive(Clone, Copy)]
struct Spaced {
    first: i32,
    pitch: i32,
    cells: usize,
    ghost few: { cells ≤ 512 },
}

impl Spaced {
    fn edge(&self, i: usize) -> i64
        requires { i < self.now.cells + 1 }
        ensures { result ≡ even_edge self.now.first self.now.pitch i }
    {
        // `as` for i, since i64 has no From<usize>.
        i64::from(self.first) + i as i64 * i64::from(self.pitch)
    }
}

impl Edges for Spaced {
    ghost edges = { λ s. even_edges s.first s.pitch s.cells };

    #[tactic(auto, using(crate::proofs::Propers::even_length))]
    fn count(&self) -> usize {
        self.cells + 1
    }

    #[tactic(auto, using(crate::proofs::Propers::even_edge_at, crate::proofs::Propers::even_edge_past))]
    fn get(&self, i: usize) -> i64 {
        if i <= self.cells { self.edge(i) } else { 0 }
    }
}

/// An axis whose cells are all as wide.
#[derive(Clone, Copy)]
pub struct EvenAxis {
    spaced: Spaced,
    ghost proper: { Proper (even_edges spaced.first spaced.pitch spaced.cells) },
}

impl EvenAxis {
    /// The axis of 1 to 512 cells from `first` up, each as wide as `pitch`, both in the user's unit. Checks 2, 5, 4, by
    /// `even_check` of specs/AxisChecks; its edges are `even_edges` of specs/Axes.
    pub fn new(first: i32, pitch: i32, cells: usize) -> Result<EvenAxis, Refusal>
        ensures { Verdict (even_check first pitch cells) (λ a. ⟦<EvenAxis as Axis>⟧.edges a ≡ even_edges first pitch cells) result }
    {
        check_count(cells, 1, MOST_CELLS)?;
        let spaced = Spaced {
            first,
            pitch,
            cells,
        };
        check_edges(&spaced)?;
        Ok(EvenAxis { spaced })
    }
}

impl Axis for EvenAxis {
    ghost edges = { λ a. even_edges a.spaced.first a.spaced.pitch a.spaced.cells };

    ghost proper = { λ a. a.proper };

    fn cells(&self) -> usize {
        self.spaced.cells
    }

    fn edge(&self, i: usize) -> i32 {
        // The cast loses nothing: each edge lies within 4,194,304 of 0.
        // It is `as`, since no `From` narrows, and `try_from` would test what the type already keeps.
        self.spaced.edge(i.min(self.spaced.cells)) as i32
    }
}
