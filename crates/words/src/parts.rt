// Where the parts of a word end and stand.
ghost use Rattle.std.specs.Prelude.{◌≡◌, ◌≤◌, length, IfSome};
ghost use Rattle.words.specs.Ends.{end_of, part_end};
ghost use Rattle.words.specs.Places.{argument_place, place as place_of, part_at};
ghost use Rattle.words.specs.Statements.{Found, LengthInFront, CutsPart};
ghost use Rattle.terms.specs.Views.{view};

use crate::part::Part;
use terms::signature::Signature;

// The length of the part that a word begins with.
#[tactic(auto, using(crate::proofs::Ends::found_of))]
pub fn part_end(signature: &Signature, word: &[u64]) -> Option<usize>
    ensures value { result ≡ part_end (view signature.now) word.now }
    ensures found { Found (view signature.now) word.now result }
    ensures front { LengthInFront (view signature.now) word.now result }
{
    row_end(signature, 1, word)
}

// The length of so many parts in a row: of each the first letter, then its arguments in a row.
// That the answer lies in the word is said here, of `place` and of `argument`: all three are steps of one sum, bare as it is.
fn row_end(signature: &Signature, count: usize, word: &[u64]) -> Option<usize>
    ensures within { IfSome result (λ n. n ≤ length word.now) }
    ensures value { result ≡ end_of (view signature.now) count word.now }
{
    // A loop: a fold's closure would call the function that holds it.
    let mut at = 0;
    for _ in 0..count {
        let [first, rest @ ..] = &word[at..] else {
            return None;
        };
        at += row_end(signature, signature.arity(*first)?, rest)? + 1;
    }
    Some(at)
}

// The part at a position, a path of argument numbers counted from 1.
pub fn part(signature: &Signature, word: &[u64], path: &[u8]) -> Option<Part>
    ensures value { result ≡ part_at (view signature.now) path.now word.now }
    ensures cuts { CutsPart (view signature.now) path.now word.now result }
{
    let start = place(signature, word, path)?;
    let len = part_end(signature, &word[start..])?;
    Some(Part { start, len })
}

// Where the part at a position starts.
fn place(signature: &Signature, word: &[u64], path: &[u8]) -> Option<usize>
    ensures within { IfSome result (λ n. n ≤ length word.now) }
    ensures value { result ≡ place_of (view signature.now) path.now word.now }
{
    // A loop: tried as a fold, past which nothing is known of the place.
    let mut at = 0;
    for number in path {
        at += argument(signature, &word[at..], *number)?;
    }
    Some(at)
}

// Where the argument with this number of the part that a word begins with starts.
fn argument(signature: &Signature, word: &[u64], number: u8) -> Option<usize>
    ensures within { IfSome result (λ n. n ≤ length word.now) }
    ensures value { result ≡ argument_place (view signature.now) number word.now }
{
    let [first, rest @ ..] = word else {
        return None;
    };
    let skipped = usize::from(number).checked_sub(1)?;
    if skipped >= signature.arity(*first)? {
        return None;
    }
    Some(row_end(signature, skipped, rest)? + 1)
}
