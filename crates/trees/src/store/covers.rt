// Whether a branch has a child for each constructor.
ghost use Rattle.std.specs.Prelude.{◌≡◌};
ghost use Rattle.std.specs.List.{slice_get};
ghost use Rattle.terms.specs.Options.{passes};
ghost use Rattle.terms.specs.Views.{view};
ghost use Rattle.rewriting.specs.Completeness.{is_met as meets, covers as all_covered};
ghost use Rattle.trees.specs.Rows.{there};
ghost use Rattle.trees.specs.Nodes.{Leads};
ghost use Rattle.trees.specs.Growth.{nodes_of};

use super::Store;
use crate::heads::{Heads, makes, sort_of};
use terms::signature::{Role, Signature};

impl Store {
    // Whether there is a child for a symbol, if it is a constructor of the sort of one of the heads.
    // Signature, heads and children go as in `covers`: a struct would be made for one call. A link is a place, since there is no heap.
    fn is_covered(
        &self,
        signature: &Signature,
        heads: &Heads,
        children: Option<usize>,
        symbol: u8,
    ) -> bool
        requires { Leads (nodes_of self.now) children heads.now }
        ensures { result ≡ passes (meets (view signature.now) (there heads.now) symbol) (slice_get (view signature.now).symbols symbol) }
    {
        // Three ways: nothing declared, a constructor, another role.
        match signature.symbol_role(symbol) {
            None => false,
            Some(Role::Constructor) => !makes(signature, heads, sort_of(signature, symbol))
                || self.seek(children, symbol).is_some(),
            Some(Role::Function | Role::Operation) => true,
        }
    }

    // Whether there is a child for each constructor of the heads' sort.
    pub(crate) fn covers(
        &self,
        signature: &Signature,
        heads: &Heads,
        children: Option<usize>,
    ) -> bool
        requires { Leads (nodes_of self.now) children heads.now }
        ensures { result ≡ all_covered (view signature.now) (there heads.now) }
    {
        // The cast loses nothing: there are at most 96 symbols.
        (0..signature.symbol_count()).all(|symbol| self.is_covered(
            signature,
            heads,
            children,
            symbol as u8,
        ))
    }
}
