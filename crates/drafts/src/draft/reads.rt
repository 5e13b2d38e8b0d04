// What a draft holds.
ghost use Rattle.std.specs.Prelude.{◌≡◌, ◌+◌, ◌≤◌, length, take, drop, Some, option_map};
ghost use Rattle.std.specs.List.{slice_get};
ghost use Rattle.terms.specs.Rows.{items};
ghost use Rattle.terms.specs.Views.{view};
ghost use Rattle.drafts.specs.Drafts.{functions_in, most_letters};
ghost use Rattle.drafts.specs.Statements.{SoundContents, SoundRules};
ghost use Rattle.drafts.specs.Books.{CountedContents, BookRules};
ghost use Rattle.drafts.specs.Stores.{seen};

use super::{Declared, Draft};
use crate::span::Span;

impl Draft {
    // The sorts and symbols, and how many rules each symbol promises.
    pub fn declared(&self) -> Declared<'_>
        ensures signature { view result.signature.now ≡ (seen self.now).signature }
        ensures promised { result.promised.now ≡ (seen self.now).promised }
        ensures sound { SoundContents (seen self.now).signature }
        ensures counted { CountedContents (seen self.now) }
    {
        Declared {
            signature: &self.signature,
            promised: self.promises(),
        }
    }

    // How many rules stand.
    pub fn rule_count(&self) -> usize
        ensures value { result ≡ length (seen self.now).rules }
        ensures sound { SoundRules (seen self.now) }
        ensures book { BookRules (seen self.now) }
    {
        self.rules.as_slice().len()
    }

    // How many functions there are.
    pub fn function_count(&self) -> usize
        ensures { result ≡ functions_in (seen self.now).promised }
    {
        self.promises().iter().filter(|rules| **rules > 0).count()
    }

    // How many rules a symbol promises; one that is no function promises none.
    pub fn promised(&self, symbol: u8) -> Option<u8>
        ensures { result ≡ slice_get (seen self.now).promised symbol }
    {
        self.promises().get(usize::from(symbol)).copied()
    }

    // How many rules each symbol promises.
    pub(super) fn promises(&self) -> &[u8]
        ensures value { result.now ≡ (seen self.now).promised }
        ensures few { length result.now ≤ 96 }
    {
        &self.promised[..self.signature.symbol_count()]
    }

    // The left side of a rule.
    // `right` reads the same span further on: a line each, and a parameter for the side would be told apart again.
    pub fn left(&self, rule: usize) -> Option<&[u64]>
        ensures { option_map (λ p. p.now) result ≡ option_map (λ q. q.left) (slice_get (seen self.now).rules rule) }
    {
        let span = self.span(rule)?;
        Some(self.part(span.start, span.left))
    }

    // The right side of a rule.
    pub fn right(&self, rule: usize) -> Option<&[u64]>
        ensures { option_map (λ p. p.now) result ≡ option_map (λ q. q.right) (slice_get (seen self.now).rules rule) }
    {
        let span = self.span(rule)?;
        Some(self.part(span.start + span.left, span.right))
    }

    // Where a rule's letters stand. One get of its own row, as the name of a sort and the node at a place.
    fn span(&self, rule: usize) -> Option<Span>
        ensures { result ≡ slice_get (items self.now.rules) rule }
    {
        self.rules.as_slice().get(rule).copied()
    }

    // So many letters of the pool.
    // Start and length lie in the span: a range would be made of them to be taken apart.
    fn part(&self, start: usize, len: usize) -> &[u64]
        requires { start + len ≤ length (items self.now.letters) }
        ensures { result.now ≡ take len (drop start (items self.now.letters)) }
    {
        &self.letters.as_slice()[start..start + len]
    }
}
