// What a draft and a plan hold of a scan.
ghost use Rattle.std.specs.Prelude.{◌≤◌};
ghost use Rattle.arrayvec.specs.ArrayVec.{array_vec_len};
ghost use Rattle.scan.specs.Limits.{SourceClear, ColumnsNearer};
ghost use Rattle.scan.specs.ViewDirections.{AllAccepted, StepsKnown};

use crate::directions::MOST_DIRECTIONS;
use crate::listed::ListedAxis;
use crate::plan::MOST_VIEWS;
use arrayvec::ArrayVec;
use geometry::distances::Distances;
use geometry::heading::Heading;

#[derive(Drop)]
pub(crate) struct Layout {
    pub(crate) distances: Distances,
    pub(crate) x: ListedAxis,
    pub(crate) y: ListedAxis,
    pub(crate) z: ListedAxis,
    pub(crate) column: ListedAxis,
    pub(crate) row: ListedAxis,
    // Empty where the turn table serves.
    pub(crate) directions: ArrayVec<Heading, MOST_DIRECTIONS>,
    // The step of each view, in two bytes, since they lie in the plan itself.
    pub(crate) steps: ArrayVec<u16, MOST_VIEWS>,
    ghost clear: { SourceClear distances.source x.edges.items y.edges.items },
    ghost nearer: { ColumnsNearer distances.panel column.edges.items },
    ghost accepted: { AllAccepted directions.items },
    ghost known: { StepsKnown directions.items steps.items },
    ghost few: { array_vec_len steps ≤ 1024 },
}
