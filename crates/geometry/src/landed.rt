// Where the edges of voxels and of panel cells land on the common plane, which holds the rotation axis and lies
// across the slab axis. Each landed edge is one division to the nearest whole number.
// No admitted plan makes a divisor 0; an edge whose divisor is 0 lands at 0.
ghost use Rattle.std.specs.Prelude.{◌≡◌, ◌^◌, ◌≤◌, pos, ◌+ℤ◌, ◌*ℤ◌, unsigned_abs};
ghost use Rattle.geometry.specs.Landed.{slab_sum, depth, panel_depth, cross_edge, height_edge, column_edge, row_edge};

use crate::cell::Cell;
use crate::direction::{Direction, R, SlabAxis};
use crate::distances::Distances;
use crate::edge::Edge;
use crate::nearest::nearest;

/// How the source and the panel stand in one view: how far away, and which way.
#[derive(Clone, Copy, PartialEq, Eq, Debug)]
pub struct Pose {
    pub distances: Distances,
    pub direction: Direction,
}

// Twice where the middle of a cell lies: the sum of the cell's edges.
#[derive(Clone, Copy, PartialEq, Eq, Debug)]
struct Middle {
    twice: i64,
    ghost within: { unsigned_abs twice ≤ 8388608 },
}

impl Cell {
    fn middle(self) -> Middle
        ensures { result.twice ≡ self.low.at +ℤ self.high.at }
    {
        Middle {
            twice: self.low.at + self.high.at,
        }
    }
}

impl Pose {
    // Q: twice the middle of the slab, negated for cells of x.
    fn slab_sum(self, slab: Cell) -> Middle
        ensures { result.twice ≡ slab_sum self.direction.slabs slab.low.at slab.high.at }
    {
        let middle = slab.middle();
        match self.direction.slabs {
            SlabAxis::X => Middle {
                twice: -middle.twice,
            },
            SlabAxis::Y => middle,
        }
    }

    // The divisor of U and W: 2R times the signed distance along the slab axis between the source and the slab's middle.
    fn depth(self, slab: Middle) -> i64
        ensures value { result ≡ depth self.distances.source self.direction.a slab.twice }
        ensures within { unsigned_abs result ≤ 2 ^ 40 }
    {
        2 * self.distances.source * self.direction.a - R * slab.twice
    }

    // The dividend of U.
    fn cross_dividend(self, slab: Middle, e: Edge) -> i64
        ensures value { result ≡ self.distances.source *ℤ (pos 2 *ℤ e.at *ℤ self.direction.a +ℤ slab.twice *ℤ self.direction.b) }
        ensures within { unsigned_abs result ≤ 2 ^ 62 }
    {
        self.distances.source * (2 * e.at * self.direction.a + slab.twice * self.direction.b)
    }

    // The dividend of W and T.
    fn height_dividend(self, z: Edge) -> i64
        ensures value { result ≡ pos 2 *ℤ self.distances.source *ℤ self.direction.a *ℤ z.at }
        ensures within { unsigned_abs result ≤ 2 ^ 61 }
    {
        2 * self.distances.source * self.direction.a * z.at
    }

    /// U: where the edge e of a voxel, across the slab axis, lands from a slab, to the nearest whole unit. Defined by
    /// `cross_edge` of specs/Landed.
    pub fn cross_edge(self, slab: Cell, e: Edge) -> i64
        ensures { result ≡ cross_edge self.distances.source self.direction.a self.direction.b (slab_sum self.direction.slabs slab.low.at slab.high.at) e.at }
    {
        let middle = self.slab_sum(slab);
        nearest(self.cross_dividend(middle, e), self.depth(middle))
    }

    /// W: where the edge z of a voxel, along the rotation axis, lands from a slab, to the nearest whole unit. Defined by
    /// `height_edge` of specs/Landed.
    pub fn height_edge(self, slab: Cell, z: Edge) -> i64
        ensures { result ≡ height_edge self.distances.source self.direction.a (slab_sum self.direction.slabs slab.low.at slab.high.at) z.at }
    {
        nearest(self.height_dividend(z), self.depth(self.slab_sum(slab)))
    }

    /// S: where the edge k of a panel column lands, to the nearest whole unit. Defined by `column_edge` of specs/Landed.
    pub fn column_edge(self, k: Edge) -> i64
        ensures { result ≡ column_edge self.distances.source self.distances.panel self.direction.a self.direction.b k.at }
    {
        let panel_depth = self.direction.panel_depth(self.distances.panel, k.at);
        nearest(self.distances.column_dividend(k), panel_depth)
    }

    /// T: where the edge g of a panel row lands, from the middle of a column, to the nearest whole unit. Defined by
    /// `row_edge` of specs/Landed.
    pub fn row_edge(self, column: Cell, g: Edge) -> i64
        ensures { result ≡ row_edge self.distances.source self.distances.panel self.direction.a self.direction.b (column.low.at +ℤ column.high.at) g.at }
    {
        let middle = column.middle();
        let panel_depth = self
            .direction
            .panel_depth(2 * self.distances.panel, middle.twice);
        nearest(self.height_dividend(g), panel_depth)
    }
}

impl Distances {
    // The dividend of S.
    fn column_dividend(self, k: Edge) -> i64
        ensures value { result ≡ self.source *ℤ pos 16384 *ℤ k.at }
        ensures within { unsigned_abs result ≤ 2 ^ 60 }
    {
        self.source * R * k.at
    }
}

impl Direction {
    // The divisor of S: R times the signed distance along the slab axis between the source and the point k of the panel.
    // That of T is 2R times the distance at the column's middle, as both the panel's distance and k are then doubled.
    fn panel_depth(self, panel: i64, k: i64) -> i64
        requires panel { unsigned_abs panel ≤ 2 ^ 26 }
        requires edge { unsigned_abs k ≤ 8388608 }
        ensures value { result ≡ panel_depth panel self.a self.b k }
        ensures within { unsigned_abs result ≤ 2 ^ 41 }
    {
        panel * self.a - k * self.b
    }
}

#[cfg(test)]
mod tests {
    use super::*;

    // A view along y, with the source at 1000 and the panel at 2000.
    fn pose(direction: Direction) -> Pose {
        Pose {
            distances: Distances {
                source: 1000,
                panel: 2000,
            },
            direction,
        }
    }

    const AHEAD: Direction = Direction {
        slabs: SlabAxis::Y,
        a: R,
        b: 0,
    };

    const BEHIND: Direction = Direction {
        slabs: SlabAxis::Y,
        a: -R,
        b: 0,
    };

    // Where the edges at -100, 0 and 100 across, and at -50 and 50 up, land from a slab ahead.
    fn landed(slab: Cell) -> ([i64; 3], [i64; 2]) {
        let pose = pose(AHEAD);
        let across = [Edge { at: -100 }, Edge { at: 0 }, Edge { at: 100 }];
        let up = [Edge { at: -50 }, Edge { at: 50 }];
        (
            across.map(|e| pose.cross_edge(slab, e)),
            up.map(|z| pose.height_edge(slab, z)),
        )
    }

    #[test]
    fn voxels_toward_the_source_land_wider(rt: HostRuntime) {
        let slab = Cell {
            low: Edge { at: 0 },
            high: Edge { at: 100 },
        };
        assert_eq!(rt; landed(slab), ([-105, 0, 105], [-53, 53]));
    }

    #[test]
    fn voxels_beyond_the_axis_land_narrower(rt: HostRuntime) {
        let slab = Cell {
            low: Edge { at: -100 },
            high: Edge { at: 0 },
        };
        assert_eq!(rt; landed(slab), ([-95, 0, 95], [-48, 48]));
    }

    #[test]
    fn columns_land_turned_about_after_half_a_turn(rt: HostRuntime) {
        let pose = pose(BEHIND);
        assert_eq!(rt; pose.column_edge(Edge { at: -200 }), 100);
        assert_eq!(rt; pose.column_edge(Edge { at: 0 }), 0);
        assert_eq!(rt; pose.column_edge(Edge { at: 200 }), -100);
    }
}
