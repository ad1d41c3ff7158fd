// The memo of lists: for two roots, the cover and the length of their list, and where a copy of it stands in the list room.
#![tactic(auto)]

pub mod copy;
pub mod past;
