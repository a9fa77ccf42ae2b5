// A kind of patch: what it must answer, what it means, and the laws that it keeps.
#![tactic(auto)]

pub mod answers;
pub mod counts;
pub mod kind;
pub mod steps;
