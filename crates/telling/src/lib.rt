// Answers told in numbers: document 01's number as the result, 0 when done, the other numbers of the answer in a lent array.
#![tactic(auto)]

pub mod told;
