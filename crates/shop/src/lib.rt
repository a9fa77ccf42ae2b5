// The shop: four repositories and a counter, what each call answers, and what is promised of all of them.
#![tactic(auto)]

pub mod refusal;
pub mod repository;
pub mod shop;
