// Drafts: a book while it is written.
#![tactic(auto)]

pub mod draft;
mod due;
pub mod fault;
mod shape;
mod span;
