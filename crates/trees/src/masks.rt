// Masks: which rules of a draft remain.
ghost use Rattle.std.specs.Prelude.{◌≡◌, ◌≤◌, map, length, nat_eq};
ghost use Rattle.std.specs.List.{slice_get};
ghost use Rattle.terms.specs.Options.{passes};
ghost use Rattle.rewriting.specs.Rules.{rules_of};
ghost use Rattle.rewriting.specs.Growing.{sole_open};
ghost use Rattle.drafts.specs.Rules.{starts_with};
ghost use Rattle.drafts.specs.Books.{book_of};
ghost use Rattle.drafts.specs.Stores.{seen};
ghost use Rattle.trees.specs.Opens.{open_of};
ghost use Rattle.trees.specs.Rows.{chosen, is_head, IsNext, IsPlace};

use crate::heads::Heads;
use crate::rows::all_variables;
use crate::stage::Stage;
use drafts::draft::{Draft, MOST_RULES};
use std::array::from_fn;
use terms::letter::Letter;

// For each rule of a draft, by its number: whether it remains.
// No heap: a table by the number of a rule.
pub(crate) type Mask = [bool; MOST_RULES];

// The rules of a function.
pub(crate) fn rules_of(draft: &Draft, function: u8) -> Mask
    ensures { chosen result (book_of (seen draft.now)).rules ≡ rules_of (book_of (seen draft.now)) function }
{
    from_fn(|rule| is_rule_of(draft, rule, function))
}

// Whether a rule is one of a function.
fn is_rule_of(draft: &Draft, rule: usize, function: u8) -> bool
    ensures { result ≡ passes (λ q. nat_eq q.function function) (slice_get (book_of (seen draft.now)).rules rule) }
{
    draft
        .left(rule)
        .is_some_and(|left| starts_with(left, function))
}

// Whether a word starts with the letter of a function. Drafts have such a test too, which no other crate can call.
fn starts_with(word: &[u64], function: u8) -> bool
    ensures { result ≡ starts_with function word.now }
{
    matches!(word, [first, ..] if *first == u64::from(Letter::Symbol(function)))
}

// The rules that have this symbol at a position.
pub(crate) fn with_head(heads: &Heads, symbol: u8) -> Mask
    ensures { result ≡ map (is_head symbol) heads.now }
{
    from_fn(|rule| heads[rule] == Some(symbol))
}

// The first rule from a place on that remains.
// Draft and mask, here and where heads are sought and trees grown, are two: the mask changes at each step, the draft never.
fn next_rule(draft: &Draft, remain: &Mask, from: usize) -> Option<usize>
    requires { from ≤ length (book_of (seen draft.now)).rules }
    ensures { IsNext remain.now (book_of (seen draft.now)).rules from result }
{
    (from..draft.rule_count()).find(|rule| remain[*rule])
}

// The one rule that remains, if it has a variable at each open position.
pub(crate) fn sole_open(draft: &Draft, stage: Stage<'_>) -> Option<usize>
    ensures { IsPlace (book_of (seen draft.now)).rules (sole_open (open_of stage.entry.positions.now) (chosen stage.entry.remain.now (book_of (seen draft.now)).rules)) result }
{
    let rule = next_rule(draft, stage.remain, 0)?;
    let sole = next_rule(draft, stage.remain, rule + 1).is_none();
    (sole && all_variables(draft, rule, stage.positions)).then_some(rule)
}
