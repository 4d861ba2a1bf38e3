//! The geometry of the distance-driven method for a cone beam and a flat panel: where the edges of voxels and of panel
//! cells land on a common plane, and how far the stretches between two edges overlap.
#![tactic(auto)]

pub mod cell;
pub mod direction;
pub mod distances;
pub mod edge;
mod floor;
pub mod heading;
pub mod landed;
mod nearest;
pub mod no_step;
pub mod step;
pub mod stretch;
pub mod turn;
