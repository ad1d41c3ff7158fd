// The rows of a function text in the node table: each row's cube, the set that it joins, and last the upper root.
#![tactic(auto)]

pub mod cube;
pub mod naming;
