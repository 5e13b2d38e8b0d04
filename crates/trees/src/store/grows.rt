// Growing trees.
ghost use Rattle.std.specs.Prelude.{◌≡◌, ◌+◌, ◌<◌, ◌≤◌, [], ◌∷◌, ◌++◌, Some, length};
ghost use Rattle.rewriting.specs.Growing.{grow as the_grown};
ghost use Rattle.drafts.specs.Books.{book_of};
ghost use Rattle.drafts.specs.Stores.{seen};
ghost use Rattle.trees.specs.Opens.{open_of};
ghost use Rattle.trees.specs.Rows.{chosen};
ghost use Rattle.trees.specs.Growth.{nodes_of, IsGrown, WithinCost, AtStage, cost};

use super::Store;
use crate::grown::Grown;
use crate::heads::{arity_of, first_shared, new_head};
use crate::masks::{sole_open, with_head};
use crate::node::{Kind, Node};
use crate::open::Open;
use crate::stage::Stage;
use drafts::draft::{Draft, MOST_RULES};
use terms::row::Row;

const NO_NODE: Node = Node {
    symbol: 0,
    kind: Kind::Rule(0),
    next: None,
};

impl Store {
    // No node.
    pub(crate) fn empty() -> Store
        ensures { nodes_of result ≡ [] }
    {
        Store {
            nodes: Row::new(NO_NODE),
        }
    }

    // One node more, and its place.
    pub(crate) fn push(&mut self, node: Node) -> Option<usize>
        requires { length (nodes_of self.old) < 1024 }
        ensures place { result ≡ Some (length (nodes_of self.old)) }
        ensures pushed { nodes_of self.new ≡ nodes_of self.old ++ (node ∷ []) }
    {
        self.nodes.push(node)
    }

    // The tree for the open positions and the rules that remain, with so many branches in a row at most: the nodes below its root are added.
    pub(crate) fn grow(&mut self, draft: &Draft, stage: Stage<'_>, fuel: usize) -> Option<Grown>
        requires stage { AtStage (book_of (seen draft.now)) fuel (open_of stage.positions.now) (chosen stage.remain.now (book_of (seen draft.now)).rules) }
        requires room { length (nodes_of self.old) + cost fuel (chosen stage.remain.now (book_of (seen draft.now)).rules) ≤ 1024 }
        ensures fits { WithinCost self.old self.new (cost fuel (chosen stage.entry.remain.now (book_of (seen draft.now)).rules)) }
        ensures grown { IsGrown (seen draft.now).signature (book_of (seen draft.now)).rules self.old self.new (the_grown (seen draft.now).signature fuel (open_of stage.entry.positions.now) (chosen stage.entry.remain.now (book_of (seen draft.now)).rules)) result }
    {
        if let Some(rule) = sole_open(draft, stage) {
            return Some(Grown {
                kind: Kind::Rule(rule),
                complete: true,
            });
        }
        let shared = first_shared(draft, stage)?;
        let mut complete = true;
        let mut children = None;
        // By place: a symbol is new where no earlier place has it. A loop: a closure may not call this function again.
        for i in (0..MOST_RULES).rev() {
            if let Some(symbol) = new_head(&shared.heads, i) {
                let arity = arity_of(draft.declared().signature, symbol);
                let mut positions = Open::none();
                positions.push_opened(stage.positions, &shared.path, arity);
                let below = Stage {
                    positions: &positions,
                    remain: &with_head(&shared.heads, symbol),
                };
                let child = self.grow(draft, below, fuel - 1)?;
                complete = complete && child.complete;
                children = self.push(Node {
                    symbol,
                    kind: child.kind,
                    next: children,
                });
            }
        }
        let covered = self.covers(draft.declared().signature, &shared.heads, children);
        let whole = covered && complete;
        Some(Grown {
            kind: Kind::Branch(shared.path, children),
            complete: whole,
        })
    }
}
