// Nodes of definitional trees.
use crate::path::Path;

// What a node is: a rule by its number; or a branch at a position, with a link to its first child.
#[derive(Clone, Copy, PartialEq, Eq)]
pub enum Kind {
    Rule(usize),
    Branch(Path, Option<usize>),
}

// A node: the symbol that it stands under, what it is, and a link to its parent's next child.
// A child stands under its constructor, a root under its function. A link is the place of a node in the array.
// No heap: links are places, not boxes.
#[derive(Clone, Copy, PartialEq, Eq)]
pub struct Node {
    pub symbol: u8,
    pub kind: Kind,
    pub next: Option<usize>,
}
