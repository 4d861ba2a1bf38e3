//! Trial runs of the library's public calls: worked figures, both sides of the limits, and every refusal once.
#![tactic(auto)]

#[cfg(test)]
mod directions;
#[cfg(test)]
mod outcomes;
#[cfg(test)]
mod plans;
#[cfg(test)]
mod rows_of_calls;
#[cfg(test)]
mod small_plans;
#[cfg(test)]
mod sweeps_of_plans;
#[cfg(test)]
mod texts;
