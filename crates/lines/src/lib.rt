// Lines of lists: what a type of lines must answer, and the lines of the product, rules and notes.
#![tactic(auto)]

pub mod line;
pub mod note;
pub mod rule;
