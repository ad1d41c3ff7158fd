// The leaves on a single cube, the refusals and their numbers, and the constant table of the three-valued rules.
#![tactic(auto)]

pub mod cube;
pub mod refusal;
pub mod three;
