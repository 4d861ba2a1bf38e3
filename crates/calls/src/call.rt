ghost use Rattle.std.specs.Prelude.{◌≡◌};
ghost use Rattle.calls.specs.Rows.{accepted, mirrored_call};
ghost use Rattle.calls.specs.Systems.{System};

use crate::voxel_box::VoxelBox;

/// One call of a row, with its own view and factor, or its own box.
#[derive(Clone, Copy, PartialEq, Eq, Debug)]
pub enum Call<V> {
    /// Each working cell of the view gains the factor times the weighted sum over all voxels.
    Forward { view: usize, factor: V },
    /// Each voxel gains the factor times the weighted sum over the view's working cells.
    Back { view: usize, factor: V },
    /// Each working cell of the view gains the factor times its measured cell.
    Take { view: usize, factor: V },
    /// Each measured cell of the view gains the factor times its working cell.
    Give { view: usize, factor: V },
    /// Each working cell of the view becomes the factor times itself.
    Scale { view: usize, factor: V },
    /// The voxels in the box stay, and the others become zero.
    Trim { within: VoxelBox },
}

impl<V: Copy> Call<V> {
    /// The call mirrored: forward becomes back, take becomes give, each the other way round too, and scale and trim stay.
    /// It is accepted where the call is. Defined by `mirrored_call` of specs/Rows.
    pub fn mirrored(self) -> Call<V>
        ensures value { result ≡ mirrored_call self }
        ensures accepted { (s : System) → accepted s result ≡ accepted s self }
    {
        match self {
            Call::Forward { view, factor } => Call::Back { view, factor },
            Call::Back { view, factor } => Call::Forward { view, factor },
            Call::Take { view, factor } => Call::Give { view, factor },
            Call::Give { view, factor } => Call::Take { view, factor },
            Call::Scale { view, factor } => Call::Scale { view, factor },
            Call::Trim { within } => Call::Trim { within },
        }
    }
}
