//! Kinds of value: the interface, its laws, and three kinds that keep them.
#![tactic(auto)]

pub mod count;
pub mod count_value;
pub mod pair;
pub mod reach;
pub mod value;
