//! Matched projection and backprojection sweeps, the calls between them, and rows of calls.
#![tactic(auto)]

mod alter;
pub mod backprojection;
mod block;
mod call;
mod carry;
mod crossing;
mod edges;
pub mod figures;
mod pass;
pub mod projection;
pub mod row;
pub mod scaling;
mod strip;
mod sweep;
mod table;
pub mod tally;
pub mod transfer;
pub mod trimming;
