// What a layout says of its scan.
// Apart from layout.rt: what these methods promise is defined over `Layout`, and a file that declares a type with a ghost field may not import that.
ghost use Rattle.std.specs.Prelude.{◌≡◌, ◌<◌, ◌≤◌, length};
ghost use Rattle.scan.specs.Scans.{edges_along};
ghost use Rattle.scan.specs.ViewDirections.{direction_count, heading_at};
ghost use Rattle.scan.specs.Meanings.{scan_of};

use crate::directions::direction_count;
use crate::layout::Layout;
use crate::listed::ListedAxis;
use crate::scan_axis::ScanAxis;
use geometry::heading::Heading;
use geometry::step::Step;
use geometry::turn::heading;

impl Layout {
    pub(crate) fn axis(&self, axis: ScanAxis) -> &ListedAxis
        ensures { result.now.edges.items ≡ edges_along (scan_of self.now) axis }
    {
        match axis {
            ScanAxis::X => &self.x,
            ScanAxis::Y => &self.y,
            ScanAxis::Z => &self.z,
            ScanAxis::Column => &self.column,
            ScanAxis::Row => &self.row,
        }
    }

    // The number of views.
    pub(crate) fn views(&self) -> usize
        ensures value { result ≡ length (scan_of self.now).steps }
        ensures most { result ≤ 1024 }
    {
        self.steps.len()
    }

    // The number of directions, of which each step is one.
    pub(crate) fn direction_count(&self) -> usize
        ensures value { result ≡ direction_count (length (scan_of self.now).directions) }
        ensures most { result ≤ 1024 }
    {
        direction_count(self.directions.len())
    }

    // The heading of a step.
    pub(crate) fn heading(&self, step: u16) -> Heading
        requires { step < direction_count (length (scan_of self.now).directions) }
        ensures { result ≡ heading_at (scan_of self.now).directions step }
    {
        if self.directions.is_empty() {
            heading(Step {
                // `as`, since without a list there are 64 steps.
                number: step as u8,
            })
        } else {
            self.directions[usize::from(step)]
        }
    }
}
