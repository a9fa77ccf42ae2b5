// The memory of a shop: what is read from it, and what is written to it.
// Shop and number are two parameters, since the number may be any byte: a call refuses one above 3.
#![tactic(auto)]

pub mod read;
pub mod write;
