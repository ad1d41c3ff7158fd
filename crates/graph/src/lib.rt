// The decision graph in lent memory, on three parallel slices: level, low and high of each record.
#![tactic(auto)]

pub mod build;
pub mod entry;
pub mod operation;
pub mod table;
pub mod walk;
