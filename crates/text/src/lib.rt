// Reading and writing one-output PLA text: whole texts, candidate lists, and lists written out.
#![tactic(auto)]

pub mod candidate;
pub mod ending;
pub mod function;
pub mod judge;
pub mod reader;
pub mod writer;
pub mod writing;
