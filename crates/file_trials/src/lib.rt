//! Trial runs of the readers of plan files, and of axes over bytes.
#![tactic(auto)]

#[cfg(test)]
mod axes;
#[cfg(test)]
mod directions;
#[cfg(test)]
mod example;
#[cfg(test)]
mod plans;
#[cfg(test)]
mod texts;
#[cfg(test)]
mod voxels;
