// One view of a plan.
ghost use Rattle.std.specs.Prelude.{◌≡◌, ◌<◌, ◌≤◌, length, Some, None};
ghost use Rattle.scan.specs.Views.{slab_edges, cross_edges, landing_of, landing};
ghost use Rattle.scan.specs.Meanings.{plan_of};
ghost use Rattle.scan.specs.ViewFacts.{ViewFacts};
ghost use Rattle.scan.specs.Fits.{fitted};
ghost use Rattle.scan.specs.Landings;

use crate::axis::Axis;
use crate::landed::Landed;
use crate::layout::Layout;
use crate::listed::ListedAxis;
use crate::plan::Plan;
use crate::scan_axis::ScanAxis;
use geometry::direction::{Direction, SlabAxis};
use geometry::landed::Pose;

/// A plan, and the direction of one of its views.
#[derive(Clone, Copy)]
pub struct View<'a> {
    plan: &'a Plan,
    direction: Direction,
}

impl Plan {
    /// The view of a number, or none where the plan has no such view. Where its edges land is `landing` of specs/Views, and
    /// what holds of every view is `ViewFacts` of specs/ViewFacts.
    pub fn view(&self, view: usize) -> Option<View<'_>>
        ensures { elim result [ Some w ↦ (view < length (plan_of self.now).steps) × (⟦<View<'static> as Landed>⟧.landing w ≡ landing (plan_of self.now) view) × ViewFacts (plan_of self.now) view | None ↦ length (plan_of self.now).steps ≤ view ] }
    {
        let step = *self.layout.steps.get(view)?;
        let heading = self.layout.heading(step);
        Some(View {
            plan: self,
            // Every heading of a plan is accepted.
            direction: heading.direction().unwrap(),
        })
    }
}

// The axes of the plane of rotation: that of the slabs, and the other.
#[derive(Clone, Copy)]
struct Plane<'a> {
    slabs: &'a ListedAxis,
    crosses: &'a ListedAxis,
}

impl View<'_> {
    fn pose(&self) -> Pose
        ensures distances { result.distances ≡ self.now.plan.now.layout.distances }
        ensures direction { result.direction ≡ self.now.direction }
    {
        Pose {
            distances: self.plan.layout.distances,
            direction: self.direction,
        }
    }

    fn plane(&self) -> Plane<'_>
        ensures slabs { result.slabs.now.edges.items ≡ slab_edges (plan_of self.now.plan.now) self.now.direction.slabs }
        ensures crosses { result.crosses.now.edges.items ≡ cross_edges (plan_of self.now.plan.now) self.now.direction.slabs }
    {
        let Layout { x, y, .. } = &self.plan.layout;
        match self.direction.slabs {
            SlabAxis::X => Plane {
                slabs: x,
                crosses: y,
            },
            SlabAxis::Y => Plane {
                slabs: y,
                crosses: x,
            },
        }
    }
}

impl Landed for View<'_> {
    ghost landing = { λ w. landing_of (plan_of w.plan.now) w.direction.slabs w.direction.a w.direction.b };

    ghost sound = { λ w.
        Landings.sound (plan_of w.plan.now) (fitted w.plan.now.layout) w.direction.slabs w.direction.a w.direction.b w.direction.steep };

    fn along(&self) -> SlabAxis {
        self.direction.slabs
    }

    fn slabs(&self) -> usize {
        self.plane().slabs.cells()
    }

    fn crosses(&self) -> usize {
        self.plane().crosses.cells()
    }

    fn heights(&self) -> usize {
        self.plan.cells_along(ScanAxis::Z)
    }

    fn columns(&self) -> usize {
        self.plan.cells_along(ScanAxis::Column)
    }

    fn rows(&self) -> usize {
        self.plan.cells_along(ScanAxis::Row)
    }

    fn cross_edge(&self, slab: usize, i: usize) -> i64 {
        let Plane { slabs, crosses } = self.plane();
        self.pose()
            .cross_edge(slabs.cell_at(slab), crosses.edge_at(i))
    }

    fn height_edge(&self, slab: usize, l: usize) -> i64 {
        let slab = self.plane().slabs.cell_at(slab);
        self.pose().height_edge(slab, self.plan.layout.z.edge_at(l))
    }

    fn column_edge(&self, k: usize) -> i64 {
        self.pose().column_edge(self.plan.layout.column.edge_at(k))
    }

    fn row_edge(&self, column: usize, m: usize) -> i64 {
        let column = self.plan.layout.column.cell_at(column);
        self.pose()
            .row_edge(column, self.plan.layout.row.edge_at(m))
    }
}
