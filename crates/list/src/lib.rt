// The list generator over the node table, and the entry of the list checker.
#![tactic(auto)]

pub mod check;
pub mod entry;
pub mod generator;
