// The distances and the axes of a plan.
ghost use Rattle.std.specs.Prelude.{◌^◌, ◌<◌, length};
ghost use Rattle.planfile.specs.Numbers.{numbers_in};
ghost use Rattle.planfile.specs.Sections.{place_of};

use crate::bytes_axis::BytesAxis;
use geometry::distances::Distances;

// The distances and the axes of a plan, and where the section of the columns begins.
#[derive(Clone, Copy)]
pub(crate) struct Axes<'a> {
    pub(crate) distances: Distances,
    pub(crate) x: BytesAxis<'a>,
    pub(crate) y: BytesAxis<'a>,
    pub(crate) z: BytesAxis<'a>,
    pub(crate) column_start: usize,
    pub(crate) column: BytesAxis<'a>,
    pub(crate) row: BytesAxis<'a>,
    ghost column_within: { place_of column_start (length (numbers_in column.numbers.bytes.now)) < 2 ^ 64 },
}
