// What a rule set holds.
ghost use Rattle.std.specs.Prelude.{◌≡◌, length, option_map};
ghost use Rattle.std.specs.List.{slice_get};
ghost use Rattle.terms.specs.Options.{onward};
ghost use Rattle.terms.specs.Views.{view};
ghost use Rattle.trees.specs.Nodes.{first_child, seek, FindsChild};
ghost use Rattle.trees.specs.Standing.{nodes_in, roots_in};
ghost use Rattle.books.specs.Holding.{set_held, set_trees};
ghost use Rattle.books.specs.Statements.{SoundSet};

use super::RuleSet;
use drafts::draft::Declared;
use trees::node::Node;

// Calls that are handed on: the parts stay hidden, since what is promised of a rule set hangs on both together.
impl RuleSet {
    // The sorts and symbols, and how many rules each symbol promises.
    pub fn declared(&self) -> Declared<'_>
        ensures signature { view result.signature.now ≡ (set_held self.now).signature }
        ensures promised { result.promised.now ≡ (set_held self.now).promised }
        ensures sound { SoundSet (set_held self.now) (set_trees self.now) }
    {
        self.draft.declared()
    }

    // How many rules there are.
    pub fn rule_count(&self) -> usize
        ensures { result ≡ length (set_held self.now).rules }
    {
        self.draft.rule_count()
    }

    // The left side of a rule.
    pub fn left(&self, rule: usize) -> Option<&[u64]>
        ensures { option_map (λ p. p.now) result ≡ option_map (λ q. q.left) (slice_get (set_held self.now).rules rule) }
    {
        self.draft.left(rule)
    }

    // The right side of a rule.
    pub fn right(&self, rule: usize) -> Option<&[u64]>
        ensures { option_map (λ p. p.now) result ≡ option_map (λ q. q.right) (slice_get (set_held self.now).rules rule) }
    {
        self.draft.right(rule)
    }

    // The place of the root of a function's tree.
    pub fn root(&self, function: u8) -> Option<usize>
        ensures { result ≡ onward (slice_get (roots_in (set_trees self.now)) function) (λ o. o) }
    {
        self.trees.root(function)
    }

    // The node at a place.
    pub fn node(&self, place: usize) -> Option<Node>
        ensures { result ≡ slice_get (nodes_in (set_trees self.now)) place }
    {
        self.trees.node(place)
    }

    // The place of the child of the node at a place, for a constructor's symbol.
    pub fn child(&self, place: usize, symbol: u8) -> Option<usize>
        ensures value { result ≡ onward (slice_get (nodes_in (set_trees self.now)) place) (λ n. seek (length (nodes_in (set_trees self.now))) (nodes_in (set_trees self.now)) (first_child n.kind) symbol) }
        ensures finds { FindsChild (nodes_in (set_trees self.now)) place symbol result }
    {
        self.trees.child(place, symbol)
    }
}
