// One line of a text and what it means: bytes to fields, fields to a meaning.
#![tactic(auto)]

pub mod meaning;
pub mod number;
pub mod scan;
