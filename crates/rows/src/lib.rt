// Rows of patches: what a history does with them, over any kind, in memory that the caller lends.
#![tactic(auto)]

pub mod copy;
pub mod pass;
pub mod place;
pub mod replay;
pub mod take_out;
