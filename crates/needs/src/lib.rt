// What a patch needs: found in its own history, and brought to the front of another.
#![tactic(auto)]

pub mod block;
pub mod gather;
