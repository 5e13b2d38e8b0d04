// Reading nodes.
ghost use Rattle.std.specs.Prelude.{◌≡◌, length};
ghost use Rattle.std.specs.List.{slice_get};
ghost use Rattle.trees.specs.Nodes.{seek as the_sought};
ghost use Rattle.trees.specs.Growth.{nodes_of};

use super::Store;
use crate::node::Node;

impl Store {
    // The node at a place.
    pub(crate) fn node(&self, place: usize) -> Option<Node>
        ensures { result ≡ slice_get (nodes_of self.now) place }
    {
        self.nodes.as_slice().get(place).copied()
    }

    // The place of the node for a symbol, along links from a node on.
    pub(crate) fn seek(&self, first: Option<usize>, symbol: u8) -> Option<usize>
        ensures { result ≡ the_sought (length (nodes_of self.now)) (nodes_of self.now) first symbol }
    {
        let mut link = first;
        // A loop: tried, past a chain of links nothing is known of the node that is found.
        for _ in 0..self.nodes.as_slice().len() {
            let place = link?;
            let node = self.node(place)?;
            if node.symbol == symbol {
                return Some(place);
            }
            link = node.next;
        }
        None
    }
}
