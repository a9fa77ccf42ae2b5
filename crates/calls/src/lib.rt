// The calls of a shop, over any kind. Each is one chain of tests, in the order of its definition in
// crates/shop/specs/Calls.antt, and then one change of one repository. The number of a repository may be any byte and
// stands beside the shop: the call itself refuses one above 3.
#![tactic(auto)]

mod checks;
mod document;
pub mod level;
pub mod record;
mod rooms;
pub mod show;
mod take_out;
pub mod undo;
pub mod unrecord;
