// The distances and the axes of a plan taken together.
ghost use Rattle.std.specs.Prelude.{◌≡◌, ◌<◌, ◌^◌, ℕ, List, ℤ};
ghost use Rattle.scan.specs.Refusals.{place};
ghost use Rattle.scan.specs.Verdicts.{Verdict};
ghost use Rattle.scan.specs.declared.refusal.Refusal.TheVariants.{ColumnBeyond, SourceTooNear};
ghost use Rattle.planfile.specs.Sections.{place_of};
ghost use Rattle.planfile.specs.FileChecks.{refused_in, clearance};
ghost use Rattle.planfile.specs.Kept.{AxesOf, ClearedOf};
ghost use Rattle.planfile.specs.declared.fault.Fault.TheVariants.{Refused};

use crate::axes::Axes;
use crate::bytes_axis::BytesAxis;
use crate::fault::Fault;
use crate::placed::Placed;
use crate::section::refused_number;
use scan::accepted::Accepted;
use scan::axis::Axis;
use scan::refusal::Refusal;

// A refusal of distances and axes taken together: of an edge of the columns, or else of D.
fn refused_clearance(refusal: Refusal, column_start: usize) -> Placed
    requires { place_of column_start (place refusal) < 2 ^ 64 }
    ensures columns { (edge : ℕ) (at panel : ℤ) → refusal ≡ ColumnBeyond edge at panel → refused_in column_start refusal ≡ Refused result }
    ensures source { (source widest : ℤ) → refusal ≡ SourceTooNear source widest → refused_in 0 refusal ≡ Refused result }
{
    match refusal {
        Refusal::ColumnBeyond { edge, .. } => refused_number(column_start, edge, refusal),
        // D is number 0 of the section at byte 0.
        _ => refused_number(0, 0, refusal),
    }
}

// Axes over lent bytes, accepted together.
pub(crate) type AcceptedAxes<'b, 'a> = Accepted<'b, BytesAxis<'a>, BytesAxis<'a>, BytesAxis<'a>>;

impl<'a> Axes<'a> {
    // Checks distances and axes together (7, 8).
    pub(crate) fn accepted<'b>(&'b self) -> Result<AcceptedAxes<'b, 'a>, Fault>
        ensures { (bytes : List ℕ) → AxesOf bytes self.now → Verdict (clearance bytes)
            (λ a. ClearedOf bytes a.distances.source a.distances.panel (⟦<BytesAxis<'static> as Axis>⟧.edges a.x.now) (⟦<BytesAxis<'static> as Axis>⟧.edges a.y.now) (⟦<BytesAxis<'static> as Axis>⟧.edges a.column.now)) result }
    {
        match Accepted::new(self.distances, &self.x, &self.y, &self.column) {
            Ok(accepted) => Ok(accepted),
            Err(refusal) => Err(refused_clearance(refusal, self.column_start).into()),
        }
    }
}
