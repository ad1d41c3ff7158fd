// The C face of the library: thin exports on numbers and slices of numbers, and on a row of node records. Each returns
// document 01's number, 0 when done, and puts the other numbers of its answer into a lent array.
// Kept: in every file parameters one by one, an export for each operation, and numbers for answers, since C calls them.
#![tactic(auto)]

pub mod answer;
pub mod candidate;
pub mod function;
pub mod generator;
pub mod operation;
pub mod row;
pub mod value;
pub mod verdict;
pub mod writing;
