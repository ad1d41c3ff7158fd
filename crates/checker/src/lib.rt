// The list checker: a function as two roots of a node table, any list of cube numbers, and the verdict of the rule.
#![tactic(auto)]

pub mod entry;
pub mod fault;
pub mod faults;
pub mod fill;
pub mod judge;
