// The constructors that the rules which remain have at a position.
ghost use Rattle.std.specs.Prelude.{◌≡◌, ◌<◌, length, take, if◌then◌else◌, Some, None, slice_index_or, ◌==◌};
ghost use Rattle.terms.specs.Terms.{symbol as of_symbol};
ghost use Rattle.terms.specs.Options.{passes};
ghost use Rattle.terms.specs.Roots.{head_args};
ghost use Rattle.terms.specs.Sorting.{head_sort};
ghost use Rattle.terms.specs.Views.{view};
ghost use Rattle.rewriting.specs.FixedTree.{all_have, first_shared};
ghost use Rattle.rewriting.specs.Completeness.{makes as makes_sort};
ghost use Rattle.drafts.specs.Books.{book_of};
ghost use Rattle.drafts.specs.Stores.{seen};
ghost use Rattle.trees.specs.Views.{steps_of};
ghost use Rattle.trees.specs.Opens.{open_of};
ghost use Rattle.trees.specs.Rows.{chosen, heads_at, is_met as met_in, new_head as new_in, there};
ghost use Rattle.trees.specs.Sharing.{IsShared};

use crate::masks::Mask;
use crate::path::Path;
use crate::rows::symbol_at;
use crate::shared::Shared;
use crate::stage::Stage;
use drafts::draft::{Draft, MOST_RULES};
use terms::signature::Signature;

// For each place of a rule the symbol that it has at a position, if it remains.
// No heap: a table by the number of a rule, as `Mask` is; a struct would hold this one thing.
pub(crate) type Heads = [Option<u8>; MOST_RULES];

// The symbols at a position, if every rule that remains has one there.
fn shared_heads(draft: &Draft, path: &Path, remain: &Mask) -> Option<Heads>
    ensures { result ≡ (if all_have (steps_of path.now) (chosen remain.now (book_of (seen draft.now)).rules) then Some (heads_at (steps_of path.now) remain.now (book_of (seen draft.now)).rules) else None) }
{
    let mut heads = [None; MOST_RULES];
    // By index: the rules of the draft, the mask and the symbols go by one number, and it stops where a symbol is missing.
    for i in 0..draft.rule_count() {
        if remain[i] {
            heads[i] = Some(symbol_at(draft, i, path)?);
        }
    }
    Some(heads)
}

// The first open position at which every rule that remains has a constructor.
pub(crate) fn first_shared(draft: &Draft, stage: Stage<'_>) -> Option<Shared>
    ensures { IsShared (book_of (seen draft.now)).rules stage.entry.remain.now (first_shared (open_of stage.entry.positions.now) (chosen stage.entry.remain.now (book_of (seen draft.now)).rules)) result }
{
    stage.positions.paths().iter().find_map(|path| {
        let heads = shared_heads(draft, path, stage.remain)?;
        Some(Shared { path: *path, heads })
    })
}

// The symbol of a place, unless an earlier place has it.
pub(crate) fn new_head(heads: &Heads, at: usize) -> Option<u8>
    requires { at < 96 }
    ensures { result ≡ new_in (take at heads.now) (slice_index_or heads.now at None) }
{
    let symbol = heads[at]?;
    (!is_met(&heads[..at], symbol)).then_some(symbol)
}

// Whether some place has a symbol.
fn is_met(heads: &[Option<u8>], symbol: u8) -> bool
    ensures { result ≡ met_in symbol heads.now }
{
    heads.contains(&Some(symbol))
}

// The number of a symbol's arguments: of a constructor, or of the function whose tree is grown.
// `sort_of` below and `is_function` of the trees read likewise: they say the value where nothing is declared, once for all their callers.
pub(crate) fn arity_of(signature: &Signature, symbol: u8) -> usize
    ensures { result ≡ length (head_args (view signature.now) (of_symbol symbol)) }
{
    signature.symbol_arity(symbol).unwrap_or(0)
}

// A constructor's sort.
pub(crate) fn sort_of(signature: &Signature, symbol: u8) -> u8
    ensures { result ≡ head_sort (view signature.now) (of_symbol symbol) }
{
    signature.symbol_sort(symbol).unwrap_or(0)
}

// Whether the constructor of some place is of a sort.
pub(crate) fn makes(signature: &Signature, heads: &Heads, sort: u8) -> bool
    ensures { result ≡ makes_sort (view signature.now) sort (there heads.now) }
{
    heads.iter().any(|head| is_of(signature, *head, sort))
}

// Whether the constructor of a place is of a sort.
fn is_of(signature: &Signature, head: Option<u8>, sort: u8) -> bool
    ensures { result ≡ passes (λ s. head_sort (view signature.now) (of_symbol s) == sort) head }
{
    head.is_some_and(|symbol| sort_of(signature, symbol) == sort)
}
