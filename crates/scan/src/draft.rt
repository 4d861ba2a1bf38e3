// A scan to which views can still be added.
ghost use Rattle.std.specs.Prelude.{◌≡◌, ◌≤◌, length, Ok, Err, unsigned_abs};
ghost use Rattle.scan.specs.Verdicts.{Verdict};
ghost use Rattle.scan.specs.DraftChecks.{draft_check, listed_draft_check, view_check};
ghost use Rattle.scan.specs.Scans.{without_views, with_directions, with_view};
ghost use Rattle.scan.specs.ViewDirections.{direction_count};
ghost use Rattle.scan.specs.Limits.{Fitted};
ghost use Rattle.scan.specs.Meanings.{draft_of, plan_of};

use crate::accepted::Accepted;
use crate::axis::Axis;
use crate::directions::{Directions, Headings, MOST_DIRECTIONS};
use crate::draft_checks::{check_distances, check_view};
use crate::layout::Layout;
use crate::listed::ListedAxis;
use crate::plan::Plan;
use crate::refusal::Refusal;
use arrayvec::ArrayVec;
use geometry::heading::Heading;

/// A scan to which views can still be added. `seal` makes it a plan.
#[derive(Drop)]
pub struct Draft {
    pub(crate) layout: Layout,
}

impl<X: Axis, Y: Axis, C: Axis> Accepted<'_, X, Y, C> {
    /// The draft with the directions of the turn table, and no views yet. It keeps the edges that the axes answer. Never refused.
    /// Defined by `without_views` of specs/Scans.
    pub fn draft<Z: Axis, R: Axis>(self, z: &Z, row: &R) -> Draft
        ensures { draft_of result ≡ without_views self.entry.distances.source self.entry.distances.panel (X.Axis.edges self.entry.x.now) (Y.Axis.edges self.entry.y.now) (Z.Axis.edges z.now) (C.Axis.edges self.entry.column.now) (R.Axis.edges row.now) }
    {
        let none: &[Heading] = &[];
        self.draft_with(z, row, Directions { headings: &none })
    }

    /// The draft with a list of directions, or with those of the turn table where the list is empty, and no views yet. It keeps
    /// the edges that the axes answer, and the headings. Never refused. Defined by `with_directions` of specs/Scans.
    pub fn draft_with<Z: Axis, R: Axis, H: Headings>(
        self,
        z: &Z,
        row: &R,
        directions: Directions<'_, H>,
    ) -> Draft
        ensures { draft_of result ≡ with_directions (without_views self.entry.distances.source self.entry.distances.panel (X.Axis.edges self.entry.x.now) (Y.Axis.edges self.entry.y.now) (Z.Axis.edges z.now) (C.Axis.edges self.entry.column.now) (R.Axis.edges row.now)) (H.Headings.headings directions.entry.headings.now) }
    {
        Draft {
            layout: Layout {
                distances: self.distances,
                x: ListedAxis::copy_of(self.x),
                y: ListedAxis::copy_of(self.y),
                z: ListedAxis::copy_of(z),
                column: ListedAxis::copy_of(self.column),
                row: ListedAxis::copy_of(row),
                directions: headings_of(directions.headings),
                steps: ArrayVec::new(),
            },
        }
    }
}

// The headings of a list that a draft can have.
fn headings_of<H: Headings>(headings: &H) -> ArrayVec<Heading, MOST_DIRECTIONS>
    requires { length (H.headings headings.now) ≤ 1024 }
    ensures { result.items ≡ H.headings headings.now }
{
    let mut copied = ArrayVec::new();
    for i in 0..headings.count() {
        copied.push(headings.heading(i));
    }
    copied
}

impl Draft {
    /// A draft with no views: how far the rotation axis and the panel stand from the source, in the user's unit, and the
    /// axes of the volume and of the panel. Checks 6 for D, 6 for F, 7, 8, by `draft_check` of specs/DraftChecks; what it
    /// holds is `without_views` of specs/Scans. The axes are no struct of five, since each may be of a type of its own.
    pub fn new<X: Axis, Y: Axis, Z: Axis, C: Axis, R: Axis>(
        source: i32,
        panel: i32,
        x: &X,
        y: &Y,
        z: &Z,
        column: &C,
        row: &R,
    ) -> Result<Draft, Refusal>
        ensures { Verdict (draft_check source panel (X.Axis.edges x.now) (Y.Axis.edges y.now) (C.Axis.edges column.now)) (λ d. draft_of d ≡ without_views source panel (X.Axis.edges x.now) (Y.Axis.edges y.now) (Z.Axis.edges z.now) (C.Axis.edges column.now) (R.Axis.edges row.now)) result }
    {
        let distances = check_distances(source, panel)?;
        let accepted = Accepted::new(distances, x, y, column)?;
        Ok(accepted.draft(z, row))
    }

    /// A draft with no views whose steps are places in a list of 1 to 1,024 directions, counted from 0; else as `new`. Checks 6
    /// for D, 6 for F, 7, 8, and then 2, 11 of the list, by `listed_draft_check` of specs/DraftChecks; what it holds is
    /// `with_directions` of specs/Scans.
    pub fn with_directions<X: Axis, Y: Axis, Z: Axis, C: Axis, R: Axis>(
        source: i32,
        panel: i32,
        x: &X,
        y: &Y,
        z: &Z,
        column: &C,
        row: &R,
        directions: &[Heading],
    ) -> Result<Draft, Refusal>
        ensures { Verdict (listed_draft_check source panel (X.Axis.edges x.now) (Y.Axis.edges y.now) (C.Axis.edges column.now) directions.now)
            (λ d. draft_of d ≡ with_directions (without_views source panel (X.Axis.edges x.now) (Y.Axis.edges y.now) (Z.Axis.edges z.now) (C.Axis.edges column.now) (R.Axis.edges row.now)) directions.now) result }
    {
        let accepted = Accepted::new(check_distances(source, panel)?, x, y, column)?;
        let directions = Directions::new(&directions)?;
        Ok(accepted.draft_with(z, row, directions))
    }

    /// Adds a view from a step, which is a place in the list of directions, or from 0 to 63 in the turn table, and says its
    /// number, counted from 0. Checks 9, 21, by `view_check` of specs/DraftChecks; a draft that refuses is as it was.
    pub fn add_view(&mut self, step: i32) -> Result<usize, Refusal>
        ensures value { Verdict (view_check (length (draft_of self.old).steps) (direction_count (length (draft_of self.old).directions)) step) (λ n. n ≡ length (draft_of self.old).steps) result }
        ensures after { draft_of self.new ≡ elim result [ Ok n ↦ with_view (draft_of self.old) (unsigned_abs step) | Err e ↦ draft_of self.old ] }
    {
        let views = self.layout.views();
        let step = check_view(views, self.layout.direction_count(), step)?;
        self.layout.steps.push(step);
        Ok(views)
    }

    /// The number of views so far.
    pub fn views(&self) -> usize
        ensures { result ≡ length (draft_of self.now).steps }
    {
        self.layout.views()
    }

    /// The plan of the scan as it stands. Never refused; the draft is used up. What every plan keeps is `Fitted` of
    /// specs/Limits.
    pub fn seal(self) -> Plan
        ensures holds { plan_of result ≡ draft_of self }
        ensures fitted { Fitted (plan_of result) }
    {
        Plan {
            layout: self.layout,
        }
    }
}
