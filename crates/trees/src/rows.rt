// What the left sides of a draft's rules have at a position.
ghost use Rattle.std.specs.Prelude.{◌≡◌, option_map};
ghost use Rattle.std.specs.List.{slice_get};
ghost use Rattle.terms.specs.Options.{onward, passes};
ghost use Rattle.terms.specs.Letters.{letter_of};
ghost use Rattle.terms.specs.Views.{view};
ghost use Rattle.rewriting.specs.Growing.{variable_at, all_variables};
ghost use Rattle.drafts.specs.Books.{book_of};
ghost use Rattle.drafts.specs.Stores.{seen};
ghost use Rattle.trees.specs.Views.{steps_of};
ghost use Rattle.trees.specs.Opens.{open_of};
ghost use Rattle.trees.specs.Rows.{letter_in, constructor_symbol, variable_letter, symbol_at};

use crate::open::Open;
use crate::path::Path;
use drafts::draft::Draft;
use terms::letter::Letter;
use terms::signature::{Role, Signature};
use words::parts::part;

// The letter that a rule's left side has at a position.
// A draft and a rule by its number, here and below: left and right side are read from the draft, which stays.
fn letter_at(draft: &Draft, rule: usize, path: &Path) -> Option<u64>
    ensures { result ≡ onward (option_map (λ q. q.left) (slice_get (seen draft.now).rules rule)) (letter_in (seen draft.now).signature (steps_of path.now)) }
{
    letter_in(draft.declared().signature, draft.left(rule)?, path)
}

// The letter that a word has at a position.
fn letter_in(signature: &Signature, word: &[u64], path: &Path) -> Option<u64>
    ensures { result ≡ letter_in (view signature.now) (steps_of path.now) word.now }
{
    let found = part(signature, word, path.steps())?;
    word.get(found.start).copied()
}

// The symbol of a constructor's letter.
fn constructor_symbol(signature: &Signature, letter: u64) -> Option<u8>
    ensures { result ≡ constructor_symbol (view signature.now) letter }
{
    match Letter::try_from(letter).ok()? {
        Letter::Symbol(symbol) => (signature.role(letter)? == Role::Constructor).then_some(symbol),
        Letter::Cell(_) | Letter::Variable(_) => None,
    }
}

// The symbol of the constructor that a rule's left side has at a position.
pub(crate) fn symbol_at(draft: &Draft, rule: usize, path: &Path) -> Option<u8>
    ensures { result ≡ onward (slice_get (book_of (seen draft.now)).rules rule) (symbol_at (steps_of path.now)) }
{
    constructor_symbol(draft.declared().signature, letter_at(draft, rule, path)?)
}

// Whether a rule's left side has a variable at a position.
fn is_variable_at(draft: &Draft, rule: usize, path: &Path) -> bool
    ensures { result ≡ passes (variable_at (steps_of path.now)) (slice_get (book_of (seen draft.now)).rules rule) }
{
    letter_at(draft, rule, path).is_some_and(is_variable)
}

// Drafts ask this too, in one line of their own: a shared one would be a public function more.
fn is_variable(letter: u64) -> bool
    ensures { result ≡ variable_letter (letter_of letter) }
{
    matches!(Letter::try_from(letter), Ok(Letter::Variable(_)))
}

// Whether a rule's left side has a variable at each open position.
pub(crate) fn all_variables(draft: &Draft, rule: usize, positions: &Open) -> bool
    ensures { result ≡ passes (all_variables (open_of positions.now)) (slice_get (book_of (seen draft.now)).rules rule) }
{
    rule < draft.rule_count()
        && positions
            .paths()
            .iter()
            .all(|path| is_variable_at(draft, rule, path))
}
