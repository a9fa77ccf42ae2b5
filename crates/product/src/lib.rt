// The product: what a change of a groomer's controller is made of, how its faults are told, and the worked examples.
#![tactic(auto)]

pub mod controller;
pub mod examples;
pub mod telling;
