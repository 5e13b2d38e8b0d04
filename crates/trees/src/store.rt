// The array of nodes.
use crate::node::Node;
use terms::row::Row;

mod covers;
mod grows;
mod reads;

// The most nodes.
const MOST_NODES: usize = 1024;

// Nodes of trees; a link always goes to an earlier node.
#[derive(Clone, Copy)]
pub(crate) struct Store {
    nodes: Row<Node, MOST_NODES>,
}
