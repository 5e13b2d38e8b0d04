// What the trees are.
ghost use Rattle.std.specs.Prelude.{◌≡◌, length};
ghost use Rattle.std.specs.List.{slice_get};
ghost use Rattle.terms.specs.Options.{onward};
ghost use Rattle.trees.specs.Nodes.{first_child, seek, FindsChild};
ghost use Rattle.trees.specs.Standing.{nodes_in, roots_in};

use super::Trees;
use crate::node::{Kind, Node};

impl Trees {
    // The place of the root of a function's tree.
    pub fn root(&self, function: u8) -> Option<usize>
        ensures { result ≡ onward (slice_get (roots_in self.now) function) (λ o. o) }
    {
        *self.roots.get(usize::from(function))?
    }

    // The node at a place.
    pub fn node(&self, place: usize) -> Option<Node>
        ensures { result ≡ slice_get (nodes_in self.now) place }
    {
        self.store.node(place)
    }

    // The place of the child of the node at a place, for a constructor's symbol.
    pub fn child(&self, place: usize, symbol: u8) -> Option<usize>
        ensures value { result ≡ onward (slice_get (nodes_in self.now) place) (λ n. seek (length (nodes_in self.now)) (nodes_in self.now) (first_child n.kind) symbol) }
        ensures finds { FindsChild (nodes_in self.now) place symbol result }
    {
        match self.store.node(place)?.kind {
            Kind::Branch(_, first) => self.store.seek(first, symbol),
            Kind::Rule(_) => None,
        }
    }
}
