// Definitional trees in an array of nodes, grown from the rules of a draft.
#![tactic(auto)]

pub mod fault;
mod grown;
mod heads;
mod masks;
pub mod node;
mod open;
pub mod path;
mod rows;
mod shared;
mod stage;
mod store;
pub mod trees;
