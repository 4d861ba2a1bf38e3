// The checks that a draft and its views pass.
ghost use Rattle.std.specs.Prelude.{◌≡◌, ◌<◌, ◌≤◌, unsigned_abs};
ghost use Rattle.scan.specs.Verdicts.{Verdict};
ghost use Rattle.scan.specs.Axes.{greatest};
ghost use Rattle.scan.specs.DraftChecks.{first_beyond, distances_check, clearance_check, view_check};

use crate::accepted::Accepted;
use crate::axis::Axis;
use crate::plan::MOST_VIEWS;
use crate::refusal::Refusal;
use geometry::distances::{Distances, FARTHEST_PANEL, FARTHEST_SOURCE};

/// The distances D, from the source to the rotation axis, and F, from the source to the panel, in the user's unit. Checks 6
/// for D, 6 for F, by `distances_check` of specs/DraftChecks.
// No `TryFrom`: this crate may not write it, and in that of `Distances` it would need two refusals of its own, which are
// these two again.
pub fn check_distances(source: i32, panel: i32) -> Result<Distances, Refusal>
    ensures { Verdict (distances_check source panel) (λ d. (d.source ≡ source) × (d.panel ≡ panel)) result }
{
    let source = i64::from(source);
    let panel = i64::from(panel);
    if !(1..=FARTHEST_SOURCE).contains(&source) {
        return Err(Refusal::SourceDistance { at: source });
    }
    if !(source..=FARTHEST_PANEL).contains(&panel) {
        return Err(Refusal::PanelDistance { at: panel, source });
    }
    Ok(Distances { source, panel })
}

impl<'a, X: Axis, Y: Axis, C: Axis> Accepted<'a, X, Y, C> {
    /// Distances, and the axes that are to go with them. Checks 7, 8, by `clearance_check` of specs/DraftChecks, and copies
    /// nothing.
    pub fn new(
        distances: Distances,
        x: &'a X,
        y: &'a Y,
        column: &'a C,
    ) -> Result<Accepted<'a, X, Y, C>, Refusal>
        ensures { Verdict (clearance_check distances.source distances.panel (X.Axis.edges x.now) (Y.Axis.edges y.now) (C.Axis.edges column.now)) (λ a. (a.distances.source ≡ distances.source) × (a.distances.panel ≡ distances.panel) × (X.Axis.edges a.x.now ≡ X.Axis.edges x.now) × (Y.Axis.edges a.y.now ≡ Y.Axis.edges y.now) × (C.Axis.edges a.column.now ≡ C.Axis.edges column.now)) result }
    {
        check_clearance(distances, x, y, column)?;
        Ok(Accepted {
            distances,
            x,
            y,
            column,
        })
    }
}

// How far the farthest edge of an axis lies from 0.
fn greatest<A: Axis>(axis: &A) -> u32
    ensures { result ≡ greatest (A.edges axis.now) }
{
    (0..axis.cells() + 1)
        .map(|i| axis.edge(i).unsigned_abs())
        .max()
        .unwrap_or(0)
}

// The first edge of an axis that lies as far from 0 as the limit, or farther. Not the search of `first_outside`, which is
// over edges that are no axis yet, and leaves the limit out.
fn first_beyond<A: Axis>(axis: &A, limit: u64) -> Option<usize>
    ensures { result ≡ first_beyond limit (A.edges axis.now) }
{
    (0..axis.cells() + 1).find(|&i| limit <= u64::from(axis.edge(i).unsigned_abs()))
}

// Refuses a source too near the volume (7), and then a column edge as far from 0 as F, or farther (8).
fn check_clearance<X: Axis, Y: Axis, C: Axis>(
    distances: Distances,
    x: &X,
    y: &Y,
    column: &C,
) -> Result<(), Refusal>
    ensures { Verdict (clearance_check distances.source distances.panel (X.Axis.edges x.now) (Y.Axis.edges y.now) (C.Axis.edges column.now)) (λ _. Unit {0}) result }
{
    let widest = greatest(x).max(greatest(y));
    if distances.source.unsigned_abs() <= 2 * u64::from(widest) {
        return Err(Refusal::SourceTooNear {
            source: distances.source,
            widest: i64::from(widest),
        });
    }
    if let Some(edge) = first_beyond(column, distances.panel.unsigned_abs()) {
        return Err(Refusal::ColumnBeyond {
            edge,
            at: i64::from(column.edge(edge)),
            panel: distances.panel,
        });
    }
    Ok(())
}

// Refuses a step that is below 0, or not below the number of directions (9), and then a view more than a draft may have (21).
pub(crate) fn check_view(views: usize, directions: usize, step: i32) -> Result<u16, Refusal>
    requires { directions ≤ 1024 }
    ensures { Verdict (view_check views directions step) (λ s. (s ≡ unsigned_abs step) × (s < directions)) result }
{
    // Both casts by `as`: there are at most 1,024 directions.
    if !(0..directions as i32).contains(&step) {
        let step = i64::from(step);
        return Err(Refusal::StepOutOfRange { step, directions });
    }
    if MOST_VIEWS <= views {
        return Err(Refusal::DraftFull { views });
    }
    Ok(step as u16)
}
