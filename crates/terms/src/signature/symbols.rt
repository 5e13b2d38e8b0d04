// What a signature says of its sorts, symbols and letters.
ghost use Rattle.std.specs.Prelude.{◌≡◌, ◌<◌, ◌≤◌, [], length, option_map, IfSome};
ghost use Rattle.std.specs.List.{slice_get, position};
ghost use Rattle.std.specs.Str.{bytes_eq};
ghost use Rattle.terms.specs.Signatures.{sort_named as the_sort, symbol_named as the_symbol};
ghost use Rattle.terms.specs.Roots.{role_of, args_of, arity as arity_of};
ghost use Rattle.terms.specs.Sorting.{closed, sort_of};
ghost use Rattle.terms.specs.Rows.{items};
ghost use Rattle.terms.specs.Views.{bytes_of, declaration, view, given};

use super::{Entry, Role, Signature};
use crate::letter::Letter;
use crate::name::Name;

impl Entry {
    // The sorts of its arguments.
    fn arguments(&self) -> &[u8]
        ensures { result.now ≡ (declaration self.now).args }
    {
        self.args.as_slice()
    }
}

impl Signature {
    // How many sorts there are.
    // `symbol_count`, and `rule_count` of drafts, count other rows with bounds of their own: a shared function would be longer.
    pub fn sort_count(&self) -> usize
        ensures value { result ≡ length (view self.now).sorts }
        ensures within { result ≤ 16 }
    {
        self.sorts.as_slice().len()
    }

    // How many symbols there are.
    pub fn symbol_count(&self) -> usize
        ensures value { result ≡ length (view self.now).symbols }
        ensures within { result ≤ 96 }
    {
        self.symbols.as_slice().len()
    }

    // The name of a sort.
    pub fn sort_name(&self, sort: u8) -> Option<Name>
        ensures { option_map bytes_of result ≡ slice_get (view self.now).sorts sort }
    {
        self.sorts.as_slice().get(usize::from(sort)).copied()
    }

    // The name of a symbol.
    pub fn symbol_name(&self, symbol: u8) -> Option<Name>
        ensures { option_map bytes_of result ≡ option_map (λ d. d.name) (slice_get (view self.now).symbols symbol) }
    {
        Some(self.declared(symbol)?.name)
    }

    // The sort that has this name.
    pub fn sort_named(&self, bytes: &[u8]) -> Option<u8>
        ensures { result ≡ the_sort (view self.now) bytes.now }
    {
        // The cast loses nothing: places of sorts are below 16.
        Some(self.sort_place(bytes)? as u8)
    }

    // The symbol that has this name.
    pub fn symbol_named(&self, bytes: &[u8]) -> Option<u8>
        ensures { result ≡ the_symbol (view self.now) bytes.now }
    {
        // The cast loses nothing: places of symbols are below 96.
        Some(self.symbol_place(bytes)? as u8)
    }

    // The place of the first sort that has this name.
    // `symbol_place` searches entries, not names: a chain each, and so a line each in `sort_named` and `symbol_named`.
    fn sort_place(&self, bytes: &[u8]) -> Option<usize>
        ensures within { IfSome result (λ at. at < 16) }
        ensures value { result ≡ position (λ n. bytes_eq (bytes_of n) bytes.now) (items self.now.sorts) }
    {
        self.sorts.as_slice().iter().position(|name| name.is(bytes))
    }

    // The place of the first symbol that has this name.
    fn symbol_place(&self, bytes: &[u8]) -> Option<usize>
        ensures within { IfSome result (λ at. at < 96) }
        ensures value { result ≡ position (λ y. bytes_eq (bytes_of y.name) bytes.now) (items self.now.symbols) }
    {
        self.symbols
            .as_slice()
            .iter()
            .position(|entry| entry.name.is(bytes))
    }

    // The role of a symbol.
    // `symbol_arity`, `symbol_sort` and `symbol_name` read other parts of the same declaration, in one line each.
    pub fn symbol_role(&self, symbol: u8) -> Option<Role>
        ensures { result ≡ option_map (λ d. d.role) (slice_get (view self.now).symbols symbol) }
    {
        Some(self.declared(symbol)?.role)
    }

    // How many arguments a symbol takes.
    pub fn symbol_arity(&self, symbol: u8) -> Option<usize>
        ensures { result ≡ option_map (λ d. length d.args) (slice_get (view self.now).symbols symbol) }
    {
        Some(self.declared(symbol)?.arguments().len())
    }

    // A symbol's sort.
    pub fn symbol_sort(&self, symbol: u8) -> Option<u8>
        ensures { result ≡ option_map (λ d. d.sort) (slice_get (view self.now).symbols symbol) }
    {
        Some(self.declared(symbol)?.sort)
    }

    // The role of a symbol's letter; no other letter has one.
    pub fn role(&self, letter: u64) -> Option<Role>
        ensures { result ≡ role_of (view self.now) letter }
    {
        match Letter::try_from(letter).ok()? {
            Letter::Symbol(symbol) => self.symbol_role(symbol),
            Letter::Cell(_) | Letter::Variable(_) => None,
        }
    }

    // The sorts of the arguments that a letter takes.
    pub fn arguments(&self, letter: u64) -> Option<&[u8]>
        ensures { option_map (λ p. p.now) result ≡ args_of (view self.now) letter }
    {
        match Letter::try_from(letter).ok()? {
            Letter::Symbol(symbol) => Some(self.declared(symbol)?.arguments()),
            Letter::Cell(_) | Letter::Variable(_) => Some(&[]),
        }
    }

    // How many arguments a letter takes.
    pub fn arity(&self, letter: u64) -> Option<usize>
        ensures { result ≡ arity_of (view self.now) letter }
    {
        Some(self.arguments(letter)?.len())
    }

    // The sort of a closed term that begins with the letter.
    pub fn sort(&self, letter: u64) -> Option<u8>
        ensures { result ≡ sort_of (view self.now) closed letter }
    {
        self.sort_under(&[], letter)
    }

    // The sort of a letter, where variables have the sorts that are given.
    pub fn sort_under(&self, variables: &[Option<u8>], letter: u64) -> Option<u8>
        ensures { result ≡ sort_of (view self.now) (given variables.now) letter }
    {
        match Letter::try_from(letter).ok()? {
            Letter::Cell(_) => Some(0),
            Letter::Symbol(symbol) => self.symbol_sort(symbol),
            Letter::Variable(variable) => *variables.get(usize::from(variable))?,
        }
    }

    // What was declared under a symbol's number.
    fn declared(&self, symbol: u8) -> Option<&Entry>
        ensures { option_map (λ p. declaration p.now) result ≡ slice_get (view self.now).symbols symbol }
    {
        self.symbols.as_slice().get(usize::from(symbol))
    }
}
