//! Six calls on three stores, rows of them, and what holds of every row, whatever the weights.
#![tactic(auto)]

pub mod call;
pub mod mirror;
pub mod voxel_box;
