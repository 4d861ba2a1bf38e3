ghost use Rattle.std.specs.Prelude.{◌≡◌};
ghost use Rattle.sweeps.specs.Runs.{Covers};

use crate::edges::LandedEdges;
use geometry::stretch::Stretch;

// Cells that stand at even distances in a store, with their landed edges.
#[derive(Clone, Copy)]
pub(crate) struct Line<'a> {
    pub(crate) start: usize,
    pub(crate) stride: usize,
    pub(crate) edges: LandedEdges<'a>,
}

// A line of cells and a stretch of the common plane. The run first..last holds every cell that overlaps the stretch, and
// none that lies wholly to one side of it.
#[derive(Clone, Copy)]
pub(crate) struct Strip<'a> {
    pub(crate) line: Line<'a>,
    pub(crate) over: Stretch,
    pub(crate) first: usize,
    pub(crate) last: usize,
    ghost covers: { Covers line.edges.at.now over.low over.high first last },
}

impl<'a> Line<'a> {
    // The line over a stretch, with an empty run where the stretch is empty. The search starts at `near`: the run of one
    // stretch is the best guess for the next.
    pub(crate) fn over(self, over: Stretch, near: usize) -> Strip<'a>
        ensures line { result.line ≡ self.entry }
        ensures over { result.over ≡ over }
    {
        let first = self.edges.run_start(over.low, near);
        let last = if over.low < over.high {
            self.edges.run_end(over.high, first)
        } else {
            first
        };
        Strip {
            line: self,
            over,
            first,
            last,
        }
    }
}

impl<'a> Strip<'a> {
    // The same cells from another place of the store on.
    pub(crate) fn moved(self, start: usize) -> Strip<'a>
        ensures start { result.line.start ≡ start }
        ensures stride { result.line.stride ≡ self.entry.line.stride }
        ensures edges { result.line.edges ≡ self.entry.line.edges }
        ensures over { result.over ≡ self.entry.over }
    {
        Strip {
            line: Line { start, ..self.line },
            over: self.over,
            first: self.first,
            last: self.last,
        }
    }
}
