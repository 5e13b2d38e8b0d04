// Lawful cells in words.
ghost use Rattle.std.specs.Prelude.{◌≡◌};
ghost use Rattle.words.specs.Faults.{first_not, is_lawful, lawful_fault};
ghost use Rattle.words.specs.Statements.{LawfulClosedWord, NoFaultAt};
ghost use Rattle.terms.specs.Views.{view};

use crate::checks::word_fault;
use crate::fault::WordFault;
use numbers::NumberKind;
use terms::letter::Letter;
use terms::signature::Signature;

// The first fault of a word that is to be a closed, sort-correct term of at most so many letters with lawful cells.
pub fn lawful_word_fault<K: NumberKind>(
    signature: &Signature,
    kind: &K,
    most: usize,
    word: &[u64],
) -> Option<WordFault>
    ensures value { result ≡ lawful_fault (view signature.now) (K.NumberKind.meaning kind.now).lawful most word.now }
    ensures exact { NoFaultAt (LawfulClosedWord (view signature.now) (K.NumberKind.meaning kind.now).lawful most word.now) result }
{
    word_fault(signature, most, word).or_else(|| unlawful_cell(kind, word).map(WordFault::Cell))
}

// The first cell of a word that is not lawful: a chain as short as any that a shared function would leave.
pub fn unlawful_cell<K: NumberKind>(kind: &K, word: &[u64]) -> Option<usize>
    ensures { result ≡ first_not (is_lawful (K.NumberKind.meaning kind.now).lawful) word.now }
{
    word.iter().position(|letter| !is_lawful(kind, *letter))
}

// Whether a letter is no cell or a lawful one.
fn is_lawful<K: NumberKind>(kind: &K, letter: u64) -> bool
    ensures { result ≡ is_lawful (K.NumberKind.meaning kind.now).lawful letter }
{
    // A match: every letter is named here, and none but cells is asked.
    match Letter::try_from(letter) {
        Ok(Letter::Cell(cell)) => kind.lawful(cell),
        Ok(Letter::Symbol(_) | Letter::Variable(_)) | Err(_) => true,
    }
}
