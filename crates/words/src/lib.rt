// Truth tables on words, 64 points to a word: a table of a function of up to 16 columns is at most 1,024 words. The
// functions fill tables, add cubes to them, take one from another, and find the smallest point that a cube covers.
#![tactic(auto)]

pub mod cube;
pub mod table;
pub mod word;
