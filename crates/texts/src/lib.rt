// The text of a groomer's options.
#![tactic(auto)]

pub mod changes;
mod numbers;
pub mod reading;
mod words;
