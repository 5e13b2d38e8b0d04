// Checked books.
#![tactic(auto)]

pub mod book;
pub mod examples;
pub mod rules;
