// Stored calls as text: the numbers of a file, and what a call says and leaves.
#![tactic(auto)]

pub mod scan;
pub mod show;
