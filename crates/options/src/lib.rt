// Options of a groomer: lists of changes of its controller, put on in order and taken off again.
#![tactic(auto)]

pub mod parts;
