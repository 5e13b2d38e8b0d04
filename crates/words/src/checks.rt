// The faults of a word that is to be a term, and whether it is a value.
ghost use Rattle.std.specs.Prelude.{◌≡◌, ◌≤◌, [], ◌∷◌, length, Ok, Err};
ghost use Rattle.words.specs.Faults.{first_not, is_declared, is_closed, is_in_value, is_value, not_whole, suits, walk, wrong_argument, word_fault};
ghost use Rattle.words.specs.Statements.{ReadsBack, TellsWhole, FindsSort, ClosedWord, NoFaultAt, TellsValue};
ghost use Rattle.terms.specs.Views.{view, given};

use crate::fault::WordFault;
use crate::parts::part_end;
use terms::letter::Letter;
use terms::signature::{Role, Signature};

// The first number in a word that is no letter or an undeclared symbol.
pub fn undeclared_letter(signature: &Signature, word: &[u64]) -> Option<usize>
    ensures { result ≡ first_not (is_declared (view signature.now)) word.now }
{
    word.iter()
        .position(|letter| !is_declared(signature, *letter))
}

// The first number in a word that is a variable, no letter or an undeclared symbol.
// A function beside `undeclared_letter`: one chain each, which no shared function makes shorter.
fn unclosed_letter(signature: &Signature, word: &[u64]) -> Option<usize>
    ensures { result ≡ first_not (is_closed (view signature.now)) word.now }
{
    word.iter()
        .position(|letter| !is_closed(signature, *letter))
}

// Whether a word is a value: cells and constructors only.
pub fn is_value(signature: &Signature, word: &[u64]) -> bool
    ensures value { result ≡ is_value (view signature.now) word.now }
    ensures tells { TellsValue (view signature.now) word.now result }
{
    word.iter().all(|letter| is_in_value(signature, *letter))
}

// Where a word that is not one whole term ends early, or the first letter past the term.
pub fn not_whole(signature: &Signature, word: &[u64]) -> Option<usize>
    ensures value { result ≡ not_whole (view signature.now) word.now }
    ensures tells { TellsWhole (view signature.now) word.now result }
    ensures reads { ReadsBack (view signature.now) word.now }
{
    // Three ways, each with its own answer: no method of Option says them in less.
    match part_end(signature, word) {
        Some(end) if end < word.len() => Some(end),
        Some(_) => None,
        None => Some(word.len()),
    }
}

// Where the term of the sort due that a word begins with ends, or the first place in it that has not the sort due there.
// Both are places in the word, so the refusal is no number for a kind. Signature and word stay apart: the word is cut, the signature not.
#[tactic(auto, using(crate::proofs::Sorts::sort_of_walk))]
pub fn sorts_end(
    signature: &Signature,
    variables: &[Option<u8>],
    word: &[u64],
    due: u8,
) -> Result<usize, usize>
    ensures value { result ≡ walk (view signature.now) (given variables.now) (due ∷ []) word.now }
    ensures sorted { FindsSort (view signature.now) (given variables.now) due word.now result }
{
    walk(signature, variables, word, &[due])
}

// The first letter of an argument of wrong sort in a closed term.
fn wrong_argument(signature: &Signature, word: &[u64]) -> Option<usize>
    ensures { result ≡ wrong_argument (view signature.now) word.now }
{
    let [first, rest @ ..] = word else {
        return None;
    };
    let at = walk(signature, &[], rest, signature.arguments(*first)?).err()?;
    Some(at + 1)
}

// Along a word with the sorts that are due; as in `sorts_end` both answers are places in the word.
fn walk(
    signature: &Signature,
    variables: &[Option<u8>],
    word: &[u64],
    due: &[u8],
) -> Result<usize, usize>
    ensures within { elim result [ Ok n ↦ n ≤ length word.now | Err i ↦ i ≤ length word.now ] }
    ensures value { result ≡ walk (view signature.now) (given variables.now) due.now word.now }
{
    // A loop: a fold's closure would call the function that holds it.
    let mut at = 0;
    for sort in due {
        let [first, rest @ ..] = &word[at..] else {
            return Err(at);
        };
        let arguments = signature.arguments(*first).ok_or(at)?;
        if !suits(signature, variables, *first, *sort) {
            return Err(at);
        }
        at += walk(signature, variables, rest, arguments).map_err(|place| at + place + 1)? + 1;
    }
    Ok(at)
}

// The first fault of a word that is to be a closed, sort-correct term of at most so many letters.
// An Option, and so in `lawful_word_fault`: they answer which fault there is, and their clauses say it of that answer.
pub fn word_fault(signature: &Signature, most: usize, word: &[u64]) -> Option<WordFault>
    ensures value { result ≡ word_fault (view signature.now) most word.now }
    ensures exact { NoFaultAt (ClosedWord (view signature.now) most word.now) result }
{
    (word.is_empty() || word.len() > most)
        .then_some(WordFault::Length)
        .or_else(|| unclosed_letter(signature, word).map(WordFault::Letter))
        .or_else(|| not_whole(signature, word).map(WordFault::Whole))
        .or_else(|| wrong_argument(signature, word).map(WordFault::Sort))
}

// Whether a number is a letter of the signature: a cell, a variable or a declared symbol.
// `is_closed`, `is_in_value` and `suits` ask other things of a letter under a signature, in a line each: a struct of both has no other use.
fn is_declared(signature: &Signature, letter: u64) -> bool
    ensures { result ≡ is_declared (view signature.now) letter }
{
    signature.arguments(letter).is_some()
}

fn is_closed(signature: &Signature, letter: u64) -> bool
    ensures { result ≡ is_closed (view signature.now) letter }
{
    signature.sort(letter).is_some()
}

fn is_in_value(signature: &Signature, letter: u64) -> bool
    ensures { result ≡ is_in_value (view signature.now) letter }
{
    matches!(Letter::try_from(letter), Ok(Letter::Cell(_)))
        || matches!(signature.role(letter), Some(Role::Constructor))
}

// Whether a letter has the sort due.
fn suits(signature: &Signature, variables: &[Option<u8>], letter: u64, due: u8) -> bool
    ensures { result ≡ suits (view signature.now) (given variables.now) letter due }
{
    signature.sort_under(variables, letter) == Some(due)
}
