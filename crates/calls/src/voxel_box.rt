ghost use Rattle.std.specs.Prelude.{◌≡◌};
ghost use Rattle.calls.specs.Boxes.{contains, bounds_fit};

/// The numbers from `lower` on and below `upper`.
#[derive(Clone, Copy, PartialEq, Eq, Debug)]
pub struct Bounds {
    pub lower: usize,
    pub upper: usize,
}

impl Bounds {
    /// Whether a number lies in the bounds: the lower one is included, the upper one is not. Defined by `contains` of
    /// specs/Boxes.
    pub fn contains(self, number: usize) -> bool
        ensures { result ≡ contains self number }
    {
        self.lower <= number && number < self.upper
    }

    /// Whether the bounds are in order, the upper one no more than the cells of the axis. Defined by `bounds_fit` of
    /// specs/Boxes.
    pub fn fit(self, cells: usize) -> bool
        ensures { result ≡ bounds_fit self cells }
    {
        self.lower <= self.upper && self.upper <= cells
    }
}

/// The voxels whose numbers along x, y and z lie in these bounds.
#[derive(Clone, Copy, PartialEq, Eq, Debug)]
pub struct VoxelBox {
    pub x: Bounds,
    pub y: Bounds,
    pub z: Bounds,
}
