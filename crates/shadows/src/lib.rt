//! What the panel sees of the voxels of a plan file.
#![tactic(auto)]

pub mod answer;
mod every_view;
pub mod file;
pub mod refusal;
pub mod shadow;
