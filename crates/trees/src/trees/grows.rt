// Growing the trees of a draft.
ghost use Rattle.std.specs.Prelude.{◌≡◌, ◌+◌, ◌<◌, ◌≤◌, [], length, replicate, IfOk, None, OnOk, option_map};
ghost use Rattle.std.specs.List.{slice_get};
ghost use Rattle.terms.specs.Views.{view};
ghost use Rattle.drafts.specs.Drafts.{awaited};
ghost use Rattle.drafts.specs.Books.{book_of};
ghost use Rattle.drafts.specs.Stores.{seen, verdict};
ghost use Rattle.rewriting.specs.FixedTree.{fixed_tree};
ghost use Rattle.trees.specs.Checks.{function_role, judged, fault_at, check_fault};
ghost use Rattle.trees.specs.Standing.{nodes_in, roots_in, refusal, IsFunction, AllRooted, OthersRootless, AllOnTrees, NodesOnly, LaidOut, RulesDiffer, owed, TreeAdded};

use super::Trees;
use crate::fault::CheckFault;
use crate::heads::arity_of;
use crate::masks::rules_of;
use crate::node::Node;
use crate::open::Open;
use crate::stage::Stage;
use crate::store::Store;
use drafts::draft::{Draft, LONGEST_SIDE};
use terms::signature::{MOST_SYMBOLS, Role, Signature};

impl Trees {
    // No tree.
    pub fn none() -> Trees
        ensures nodes { nodes_in result ≡ [] }
        ensures roots { roots_in result ≡ replicate 96 None }
    {
        Trees {
            store: Store::empty(),
            roots: [None; MOST_SYMBOLS],
        }
    }

    // The trees of a draft's functions, or why there is one without.
    // No `TryFrom<&Draft>`: it would answer with the refusal alike, but not say that trees are grown.
    pub fn of(draft: &Draft) -> Result<Trees, CheckFault>
        ensures fault { refusal result ≡ check_fault (seen draft.now) }
        ensures rooted { IfOk result (AllRooted (book_of (seen draft.now))) }
        ensures counted { IfOk result (NodesOnly (book_of (seen draft.now))) }
        ensures on_trees { IfOk result AllOnTrees }
        ensures rootless { IfOk result (OthersRootless (book_of (seen draft.now))) }
        ensures laid { IfOk result (LaidOut (book_of (seen draft.now))) }
        ensures differ { IfOk result (λ _. RulesDiffer (book_of (seen draft.now))) }
    {
        // What is there is the refusal: `map_or` would say the same with an Ok in front.
        if let Some(function) = draft.awaited() {
            return Err(CheckFault::RulesMissing(function));
        }
        let mut trees = Trees::none();
        // By number: the symbols are their numbers, and the first refusal ends it.
        for symbol in 0..draft.declared().signature.symbol_count() {
            // The cast loses nothing: there are at most 96 symbols.
            trees.add_tree(draft, symbol as u8)?;
        }
        Ok(trees)
    }

    // The tree of a symbol, if it is a function.
    fn add_tree(&mut self, draft: &Draft, symbol: u8) -> Result<(), CheckFault>
        requires whole { awaited (seen draft.now) ≡ None }
        requires declared { symbol < length (seen draft.now).signature.symbols }
        requires room { length (nodes_in self.old) + owed (book_of (seen draft.now)) symbol ≤ 1024 }
        ensures fault { result ≡ verdict (fault_at (book_of (seen draft.now)) symbol) tt }
        ensures added { OnOk result (TreeAdded (book_of (seen draft.now)) symbol self.old self.new) }
    {
        if is_function(draft.declared().signature, symbol) {
            self.add_function(draft, symbol)
        } else {
            Ok(())
        }
    }

    // The tree of a function.
    fn add_function(&mut self, draft: &Draft, function: u8) -> Result<(), CheckFault>
        requires whole { awaited (seen draft.now) ≡ None }
        requires function { IsFunction (seen draft.now).signature function }
        requires room { length (nodes_in self.old) + owed (book_of (seen draft.now)) function ≤ 1024 }
        ensures fault { result ≡ verdict (judged (seen draft.now).signature function (fixed_tree (book_of (seen draft.now)) function)) tt }
        ensures added { OnOk result (TreeAdded (book_of (seen draft.now)) function self.old self.new) }
    {
        let stage = Stage {
            positions: &Open::of_call(arity_of(draft.declared().signature, function)),
            remain: &rules_of(draft, function),
        };
        let grown = self
            .store
            .grow(draft, stage, LONGEST_SIDE)
            .ok_or(CheckFault::NoTree(function))?;
        if !grown.complete {
            return Err(CheckFault::Incomplete(function));
        }
        let root = self.store.push(Node {
            symbol: function,
            kind: grown.kind,
            next: None,
        });
        // The cast makes a number wider. Tried by `usize::from`: it is then another number in the clause, and that does not close.
        self.roots[function as usize] = root;
        Ok(())
    }
}

// Whether a symbol is declared as a function.
fn is_function(signature: &Signature, symbol: u8) -> bool
    ensures { result ≡ function_role (option_map (λ d. d.role) (slice_get (view signature.now).symbols symbol)) }
{
    signature.symbol_role(symbol) == Some(Role::Function)
}
