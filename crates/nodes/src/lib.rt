// A node table as a lent row of records: the same promises as the entries on three slices, said of the row.
#![tactic(auto)]

pub mod apart;
pub mod generator;
pub mod operation;
pub mod reading;
pub mod row;
pub mod value;
pub mod verdict;
