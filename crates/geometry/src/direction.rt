// The direction of a view.
ghost use Rattle.geometry.specs.Steep.{Steep};

/// The axis whose cells are the slabs: the one along which the central ray runs more, and y at a tie.
#[derive(Clone, Copy, PartialEq, Eq, Debug)]
pub enum SlabAxis {
    X,
    Y,
}

// The unit of sines and cosines.
pub(crate) const R: i64 = 16_384;

/// (a, b) is (c, s) where the slabs are the cells of y and (s, -c) where they are the cells of x; |b| <= |a|.
#[derive(Clone, Copy, PartialEq, Eq, Debug)]
pub struct Direction {
    pub slabs: SlabAxis,
    pub a: i64,
    pub b: i64,
    ghost steep: { Steep a b },
}
