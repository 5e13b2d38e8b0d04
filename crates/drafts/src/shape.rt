// What is wrong with the two words of a rule.
ghost use Rattle.std.specs.Prelude.{cond, Some, None, ◌≡◌, ◌+◌, ◌<◌, ◌≤◌, true, false, not, ◌&&◌, ◌||◌, [], ◌∷◌, length};
ghost use Rattle.terms.specs.Terms.{own};
ghost use Rattle.terms.specs.Sorting.{closed, fn_sort};
ghost use Rattle.terms.specs.Roots.{args_of};
ghost use Rattle.terms.specs.Letters.{letter_of};
ghost use Rattle.terms.specs.Views.{view};
ghost use Rattle.words.specs.Faults.{due_after, first_not, is_declared, not_whole, suits};
ghost use Rattle.drafts.specs.Drafts.{sides, longest_side};
ghost use Rattle.drafts.specs.Rules.{at_place, is_cell, is_variable, is_function, stands_in, first_that, bad_length, first_cell, starts_with, inner_function, is_again, first_twice, is_new, first_new, takes_sort, noted, left_sorts, none_known, word_faults, shape_faults, sort_wrong};
ghost use Rattle.drafts.specs.Dues.{pending};
ghost use Rattle.drafts.specs.Stores.{verdict};
ghost use Rattle.drafts.specs.declared.fault.RuleFault.TheVariants.{Length, Letter as BadLetter, Whole};

use crate::draft::LONGEST_SIDE;
use crate::due::Due;
use crate::fault::{RuleFault, Side};
use terms::letter::Letter;
use terms::signature::{Role, Signature};
use words::checks::{not_whole, sorts_end, undeclared_letter};

// Whether a letter is a number cell.
// `is_variable` and `is_function` are such tests too: one `matches!` each, which a shared function would not shorten.
fn is_cell(letter: u64) -> bool
    ensures { result ≡ is_cell letter }
{
    matches!(Letter::try_from(letter), Ok(Letter::Cell(_)))
}

fn is_variable(letter: u64) -> bool
    ensures { result ≡ is_variable letter }
{
    matches!(Letter::try_from(letter), Ok(Letter::Variable(_)))
}

fn is_function(signature: &Signature, letter: u64) -> bool
    ensures { result ≡ is_function (view signature.now) letter }
{
    matches!(
        signature.role(letter),
        Some(Role::Function | Role::Operation)
    )
}

fn stands_in(letter: u64, word: &[u64]) -> bool
    ensures { result ≡ stands_in letter word.now }
{
    word.contains(&letter)
}

fn bad_length(word: &[u64]) -> bool
    ensures { result ≡ bad_length word.now }
{
    word.is_empty() || word.len() > LONGEST_SIDE
}

// The first number cell.
// `first_function` and `first_new` search likewise: each is one `position`, and a search that takes the test would be `position` again.
fn first_cell(word: &[u64]) -> Option<usize>
    ensures { result ≡ first_cell word.now }
{
    word.iter().position(|letter| is_cell(*letter))
}

// Whether a word starts with a function's letter.
fn starts_with(function: u8, word: &[u64]) -> bool
    ensures { result ≡ starts_with function word.now }
{
    matches!(word, [first, ..] if *first == u64::from(Letter::Symbol(function)))
}

// The first function past the first letter.
fn inner_function(signature: &Signature, word: &[u64]) -> Option<usize>
    ensures { result ≡ inner_function (view signature.now) word.now }
{
    let [_, rest @ ..] = word else {
        return None;
    };
    Some(first_function(signature, rest)? + 1)
}

fn first_function(signature: &Signature, word: &[u64]) -> Option<usize>
    ensures { result ≡ first_that (is_function (view signature.now)) word.now }
{
    word.iter()
        .position(|letter| is_function(signature, *letter))
}

// Whether a letter is a variable that stood before.
// `is_new` asks the same with a not: a line each.
fn is_again(before: &[u64], letter: u64) -> bool
    ensures { result ≡ is_again before.now letter }
{
    is_variable(letter) && stands_in(letter, before)
}

// The first variable that stood before.
fn first_twice(word: &[u64]) -> Option<usize>
    ensures { result ≡ first_twice word.now }
{
    (0..word.len()).find(|i| is_again(&word[..*i], word[*i]))
}

fn is_new(left: &[u64], letter: u64) -> bool
    ensures { result ≡ is_new left.now letter }
{
    is_variable(letter) && !stands_in(letter, left)
}

// The first variable on the right that the left lacks.
fn first_new(left: &[u64], right: &[u64]) -> Option<usize>
    ensures { result ≡ first_new left.now right.now }
{
    right.iter().position(|letter| is_new(left, *letter))
}

// Whether a letter on the left takes the sort due: a variable takes any.
fn takes_sort(signature: &Signature, letter: u64, sort: u8) -> bool
    ensures { result ≡ takes_sort (view signature.now) letter sort }
{
    is_variable(letter) || has_sort(signature, letter, sort)
}

// As `suits` of words where no variable has a sort; that one is not public.
fn has_sort(signature: &Signature, letter: u64, sort: u8) -> bool
    ensures { result ≡ suits (view signature.now) closed letter sort }
{
    signature.sort(letter) == Some(sort)
}

// Notes the sort of a variable's letter.
// A place for each of the eight variables: no heap.
fn note(letter: u64, sort: u8, known: &mut [Option<u8>; 8])
    ensures { known.new ≡ noted (letter_of letter) sort known.old }
{
    if let Ok(Letter::Variable(variable)) = Letter::try_from(letter) {
        known[usize::from(variable)] = Some(sort);
    }
}

// The sorts of a letter's arguments are due next.
fn expect(signature: &Signature, letter: u64, due: &mut Due)
    requires { length (pending due.old) ≤ 252 }
    ensures { pending due.new ≡ due_after (args_of (view signature.now) letter) (pending due.old) }
{
    if let Some(arguments) = signature.arguments(letter) {
        due.put_first(arguments);
    }
}

// Along a left side: the sorts of its variables, or the first letter that has not the sort due there.
// The refusal is a place, to which the caller adds the side. The side is short by `word_faults`: a type would serve one call.
fn left_sorts(signature: &Signature, left: &[u64], sort: u8) -> Result<[Option<u8>; 8], usize>
    requires { length left.now ≤ longest_side }
    ensures { result ≡ left_sorts (view signature.now) (sort ∷ []) none_known left.now }
{
    let mut due = Due::one(sort);
    let mut known = [None; 8];
    // A loop: what is due and what is known change along it, and of a closure that changes them nothing is known.
    for (i, letter) in left.iter().enumerate() {
        let Some(next) = due.next() else {
            return Ok(known);
        };
        if !takes_sort(signature, *letter, next) {
            return Err(i);
        }
        note(*letter, next, &mut known);
        expect(signature, *letter, &mut due);
    }
    Ok(known)
}

// A side's length.
// Side and word, as in `letter_fault` and `whole_fault`: a struct of both would be made for each call.
fn length_fault(side: Side, word: &[u64]) -> Result<(), RuleFault>
    ensures { result ≡ verdict (cond (bad_length word.now) (Some (Length side)) None) tt }
{
    if bad_length(word) {
        return Err(RuleFault::Length(side));
    }
    Ok(())
}

// A side's letters.
// `whole_fault` has the same form with another question and another refusal: one line each.
fn letter_fault(signature: &Signature, side: Side, word: &[u64]) -> Result<(), RuleFault>
    ensures { result ≡ verdict (at_place (BadLetter side) (first_not (is_declared (view signature.now)) word.now) None) tt }
{
    undeclared_letter(signature, word).map_or(Ok(()), |at| Err(RuleFault::Letter(side, at)))
}

// Whether a side is one whole term.
fn whole_fault(signature: &Signature, side: Side, word: &[u64]) -> Result<(), RuleFault>
    ensures { result ≡ verdict (at_place (Whole side) (not_whole (view signature.now) word.now) None) tt }
{
    not_whole(signature, word).map_or(Ok(()), |at| Err(RuleFault::Whole(side, at)))
}

// What the words of a rule are refused for, whatever function it is for.
// The words go as `add_rule` takes them: a struct of the two would be made for three calls, and read field by field.
pub(crate) fn word_faults(
    signature: &Signature,
    left: &[u64],
    right: &[u64],
) -> Result<(), RuleFault>
    ensures { result ≡ verdict (word_faults (view signature.now) (sides left.now right.now)) tt }
{
    length_fault(Side::Left, left)?;
    length_fault(Side::Right, right)?;
    letter_fault(signature, Side::Left, left)?;
    letter_fault(signature, Side::Right, right)?;
    // Here and below: what is asked of one side alone is refused in place, with no side to hand over.
    if let Some(at) = first_cell(left) {
        return Err(RuleFault::LeftCell(at));
    }
    whole_fault(signature, Side::Left, left)?;
    whole_fault(signature, Side::Right, right)
}

// What they are refused for as a rule of a function.
pub(crate) fn shape_faults(
    signature: &Signature,
    function: u8,
    left: &[u64],
    right: &[u64],
) -> Result<(), RuleFault>
    requires short { length left.now ≤ longest_side }
    ensures { result ≡ verdict (shape_faults (view signature.now) function (sides left.now right.now)) tt }
{
    if !starts_with(function, left) {
        return Err(RuleFault::OtherFunction);
    }
    if let Some(at) = inner_function(signature, left) {
        return Err(RuleFault::InnerFunction(at));
    }
    if let Some(at) = first_twice(left) {
        return Err(RuleFault::TwiceOnLeft(at));
    }
    if let Some(at) = first_new(left, right) {
        return Err(RuleFault::OnlyOnRight(at));
    }
    sort_faults(signature, function_sort(signature, function), left, right)
}

// A function's sort.
// Trees read the sort of a constructor so, too: one line over `symbol_sort` in each crate.
fn function_sort(signature: &Signature, function: u8) -> u8
    ensures { result ≡ fn_sort (view signature.now) (own function) }
{
    signature.symbol_sort(function).unwrap_or(0)
}

fn sort_faults(
    signature: &Signature,
    sort: u8,
    left: &[u64],
    right: &[u64],
) -> Result<(), RuleFault>
    requires { length left.now ≤ longest_side }
    ensures { result ≡ verdict (sort_wrong (view signature.now) sort right.now (left_sorts (view signature.now) (sort ∷ []) none_known left.now)) tt }
{
    let known = left_sorts(signature, left, sort).map_err(|at| RuleFault::Sort(Side::Left, at))?;
    sorts_end(signature, &known, right, sort).map_err(|at| RuleFault::Sort(Side::Right, at))?;
    Ok(())
}
