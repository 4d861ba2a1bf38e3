//! Axes, drafts and sealed plans, and where the edges of a plan's views land.
#![tactic(auto)]

pub mod accepted;
pub mod axis;
pub mod directions;
pub mod draft;
pub mod draft_checks;
pub mod edges;
pub mod even;
pub mod landed;
mod layout;
mod layout_parts;
pub mod listed;
pub mod plan;
pub mod refusal;
pub mod scan_axis;
pub mod view;
