// The form of a flat row: which history it holds, whether it has the form of a history, and where a patch stands in it.
#![tactic(auto)]

pub mod changes;
pub mod find;
pub mod form;
