//! Plans and the values of their voxels, read from bytes.
#![tactic(auto)]

mod axes;
pub mod bytes_axis;
mod clearance;
mod cursor;
pub mod fault;
mod headings;
pub mod numbers;
pub mod placed;
pub mod plan;
mod section;
mod sections;
pub mod voxels;
