ghost use Rattle.std.specs.Prelude.{◌<◌};

use arrayvec::ArrayVec;
use std::fmt;
use values::count::Count;

/// How many voxels a plan may have that has a shadow, and how many cells over all its views.
pub const MOST_PLACES: usize = 4096;

/// What the panel sees of a plan's voxels. Its two stores lie in the value itself, 66 KB together: a caller makes one, blank,
/// keeps it where there is room, and lends it to each call that fills it.
#[derive(Drop)]
pub struct Shadow {
    /// How many views there are.
    pub views: usize,
    /// How many rows the panel has.
    pub rows: usize,
    /// How many columns the panel has.
    pub columns: usize,
    /// The voxels, in the order of their places.
    pub volume: ArrayVec<Count, MOST_PLACES>,
    /// The cells of all views, in the order of their places.
    pub cells: ArrayVec<Count, MOST_PLACES>,
    /// How many voxels some cell of some view reaches.
    pub hit: usize,

    // The place of a cell, divided by these, tells its view, row and column.
    ghost some_rows: { 0 < rows },
    ghost some_columns: { 0 < columns },
}

/// A blank shadow: of no voxel, in no view, on a panel of one cell.
impl Default for Shadow {
    ghost use Rattle.shadows.specs.Shadows.{Blank};

    ghost is_default = { Blank };

    fn default() -> Shadow {
        Shadow {
            views: 0,
            rows: 1,
            columns: 1,
            volume: ArrayVec::new(),
            cells: ArrayVec::new(),
            hit: 0,
        }
    }
}

impl fmt::Display for Shadow {
    ghost use Rattle.std.specs.Prelude.{Some};
    ghost use Rattle.shadows.specs.Texts.{shadow_text};

    ghost output = { λ shadow. Some (shadow_text shadow) };

    fn fmt<W: fmt::Write>(&self, f: &mut fmt::Formatter<W>) -> fmt::Result {
        writeln!(
            f,
            "views {} rows {} columns {}",
            self.views, self.rows, self.columns
        )?;
        for (place, cell) in self.cells.iter().enumerate() {
            // Divided by one after the other: nothing bounds the product of the two.
            let view = place / self.columns / self.rows;
            let row = place / self.columns % self.rows;
            let column = place % self.columns;
            writeln!(f, "{view} {row} {column} {cell}")?;
        }
        writeln!(f, "hit {}", self.hit)
    }
}
