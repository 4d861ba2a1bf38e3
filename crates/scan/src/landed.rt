ghost use Rattle.std.specs.Prelude.{◌≡◌};
ghost use Rattle.scan.specs.Landing.{Landing, Sound};

use geometry::direction::SlabAxis;

/// One view of a scan, by where its edges land on the common plane. Past the last slab, column or edge the last is meant.
/// Five numbers of cells are five methods: calls read better by name than by a key, and slabs and crosses are no axes of
/// a scan.
pub trait Landed {
    ghost landing: { Self → Landing };

    /// The axis whose cells are the slabs.
    fn along(&self) -> SlabAxis
        ensures { result ≡ (landing self.now).along };

    /// The number of slabs.
    fn slabs(&self) -> usize
        ensures { result ≡ (landing self.now).slabs };

    /// The number of cells of the cross axis.
    fn crosses(&self) -> usize
        ensures { result ≡ (landing self.now).crosses };

    /// The number of cells of the z axis.
    fn heights(&self) -> usize
        ensures { result ≡ (landing self.now).heights };

    /// The number of panel columns.
    fn columns(&self) -> usize
        ensures { result ≡ (landing self.now).columns };

    /// The number of panel rows.
    fn rows(&self) -> usize
        ensures { result ≡ (landing self.now).rows };

    /// U: where edge i of the cross axis lands in a slab, in whole units.
    fn cross_edge(&self, slab: usize, i: usize) -> i64
        ensures { result ≡ (landing self.now).U slab i };

    /// W: where edge l of the z axis lands in a slab, in whole units.
    fn height_edge(&self, slab: usize, l: usize) -> i64
        ensures { result ≡ (landing self.now).W slab l };

    /// S: where edge k of the panel columns lands, in whole units.
    fn column_edge(&self, k: usize) -> i64
        ensures { result ≡ (landing self.now).S k };

    /// T: where edge m of the panel rows lands in a column, in whole units.
    fn row_edge(&self, column: usize, m: usize) -> i64
        ensures { result ≡ (landing self.now).T column m };

    ghost sound: { (view : Self) → Sound (landing view) };
}
