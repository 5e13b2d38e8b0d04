// Declaring sorts, constructors and functions.
ghost use Rattle.std.specs.Prelude.{None, false, ◌≡◌, ◌+◌, ◌≤◌, true, not, ◌||◌, ◌∷◌, length, take, ◌==◌, nat_lt, slice_index_or};
ghost use Rattle.drafts.specs.Drafts.{empty, total, most_rules};
ghost use Rattle.terms.specs.Names.{find_name};
ghost use Rattle.terms.specs.Signatures.{add_symbol};
ghost use Rattle.terms.specs.Views.{declaring, view, Changed};
ghost use Rattle.terms.specs.declared.signature.Role.TheVariants.{Operation};
ghost use Rattle.drafts.specs.Soundness.{same_role, Addable};
ghost use Rattle.drafts.specs.Contents.{outcome, with_symbol, names, is_found, is_taken, is_keyword, all_below, name_fault, sorts_fault, sort_fault, symbols_full, symbol_fault, constructor_fault, function_fault, declare_sort, declare_constructor, declare_function};
ghost use Rattle.drafts.specs.Stores.{seen, Does, verdict, named};

use super::{Draft, MOST_RULES};
use crate::fault::ContentFault;
use crate::span::Span;
use std::array::from_fn;
use terms::name::Name;
use terms::row::Row;
use terms::signature::{MOST_ARGUMENTS, MOST_SORTS, MOST_SYMBOLS, Role, Signature};

const NO_RULE: Span = Span {
    start: 0,
    left: 0,
    right: 0,
};

impl Draft {
    // The empty draft: what is built in.
    pub fn new() -> Draft
        ensures { seen result ≡ empty }
    {
        Draft {
            signature: Signature::built_in(),
            promised: [0; MOST_SYMBOLS],
            letters: Row::new(0),
            rules: Row::new(NO_RULE),
        }
    }

    // One sort more, under the next number.
    pub fn declare_sort(&mut self, name: &[u8]) -> Result<u8, ContentFault>
        ensures { Does (declare_sort (seen self.old) name.now) result self.old self.new }
    {
        let new = self.sort_verdict(name)?;
        self.signature
            .add_sort(new)
            .ok_or(ContentFault::NoNumberLeft)
    }

    fn sort_verdict(&self, name: &[u8]) -> Result<Name, ContentFault>
        ensures { named result ≡ verdict (sort_fault (seen self.now) name.now) name.now }
    {
        let new = self.new_name(name)?;
        if self.signature.sort_count() >= MOST_SORTS {
            return Err(ContentFault::NoNumberLeft);
        }
        Ok(new)
    }

    // One constructor more, under the next symbol number.
    // The parts of a declaration go on through the verdict and `add` as the caller gives them, and so in `declare_function`.
    pub fn declare_constructor(
        &mut self,
        name: &[u8],
        args: &[u64],
        sort: u64,
    ) -> Result<u8, ContentFault>
        ensures { Does (declare_constructor (seen self.old) name.now args.now sort) result self.old self.new }
    {
        let new = self.constructor_verdict(name, args, sort)?;
        self.add(new, Role::Constructor, args, sort, 0)
    }

    // The name of a constructor that may be added, or why it is refused.
    // `function_verdict` has another test in the middle; what both share is in `new_symbol` and `symbol_left`.
    fn constructor_verdict(
        &self,
        name: &[u8],
        args: &[u64],
        sort: u64,
    ) -> Result<Name, ContentFault>
        ensures { named result ≡ verdict (constructor_fault (seen self.now) name.now args.now sort) name.now }
    {
        let new = self.new_symbol(name, args, sort)?;
        if sort < 2 {
            return Err(ContentFault::BuiltInSort);
        }
        self.symbol_left()?;
        Ok(new)
    }

    // One function more, with the number of its rules, under the next symbol number.
    pub fn declare_function(
        &mut self,
        name: &[u8],
        args: &[u64],
        sort: u64,
        rules: u64,
    ) -> Result<u8, ContentFault>
        ensures { Does (declare_function (seen self.old) name.now args.now sort rules) result self.old self.new }
    {
        let new = self.function_verdict(name, args, sort, rules)?;
        self.add(new, Role::Function, args, sort, rules)
    }

    fn function_verdict(
        &self,
        name: &[u8],
        args: &[u64],
        sort: u64,
        rules: u64,
    ) -> Result<Name, ContentFault>
        ensures { named result ≡ verdict (function_fault (seen self.now) name.now args.now sort rules) name.now }
    {
        let new = self.new_symbol(name, args, sort)?;
        if !self.may_promise(rules) {
            return Err(ContentFault::WrongPromise);
        }
        self.symbol_left()?;
        Ok(new)
    }

    // Whether a symbol number is left.
    fn symbol_left(&self) -> Result<(), ContentFault>
        ensures { result ≡ verdict (symbols_full (seen self.now)) tt }
    {
        if self.signature.symbol_count() >= MOST_SYMBOLS {
            return Err(ContentFault::NoNumberLeft);
        }
        Ok(())
    }

    // One symbol more that nothing refuses, with the number of its rules, under the next symbol number.
    fn add(
        &mut self,
        name: Name,
        role: Role,
        args: &[u64],
        sort: u64,
        rules: u64,
    ) -> Result<u8, ContentFault>
        requires { Addable (seen self.old) (declaring role name args.now sort) rules }
        ensures { Does (outcome None (seen self.old) (length (seen self.old).signature.symbols) (with_symbol (seen self.old) (declaring role name args.now sort) rules)) result self.old self.new }
    {
        // The casts lose nothing: a sort is below 16, and a promise at most 96.
        let sorts = narrowed(args);
        let number = add_symbol(
            &mut self.signature,
            name,
            role,
            &sorts[..args.len()],
            sort as u8,
        )
        .ok_or(ContentFault::NoNumberLeft)?;
        self.promised[usize::from(number)] = rules as u8;
        Ok(number)
    }

    // Whether a function may promise so many rules: at least one, and with all that are promised not too many.
    fn may_promise(&self, rules: u64) -> bool
        ensures { result ≡ not (rules == 0 || nat_lt most_rules (total (seen self.now).promised + rules)) }
    {
        // The cast loses nothing, here and in `is_sort`: it makes a count wider.
        (1..=(MOST_RULES - self.promised_rules()) as u64).contains(&rules)
    }

    // How many rules all functions promise.
    pub fn promised_rules(&self) -> usize
        ensures { result ≡ total (seen self.now).promised }
    {
        self.promises()
            .iter()
            .map(|rules| usize::from(*rules))
            .sum()
    }

    // A name that may be added as a symbol's, with these sorts.
    fn new_symbol(&self, name: &[u8], args: &[u64], sort: u64) -> Result<Name, ContentFault>
        ensures { named result ≡ verdict (symbol_fault (seen self.now) name.now args.now sort) name.now }
    {
        let new = self.new_name(name)?;
        self.check_sorts(args, sort)?;
        Ok(new)
    }

    // A name that may be added: no rule stands, it is well formed and not taken.
    fn new_name(&self, name: &[u8]) -> Result<Name, ContentFault>
        ensures { named result ≡ verdict (name_fault (seen self.now) name.now) name.now }
    {
        if self.rule_count() > 0 {
            return Err(ContentFault::RuleStands);
        }
        let well_formed = Name::new(name).ok_or(ContentFault::MalformedName)?;
        if self.is_taken(name) {
            return Err(ContentFault::NameTaken);
        }
        Ok(well_formed)
    }

    // Whether a sort, a symbol or a keyword has the name.
    fn is_taken(&self, name: &[u8]) -> bool
        ensures { result ≡ is_taken (seen self.now).signature name.now }
    {
        self.is_name(name) || is_keyword(name)
    }

    // Whether a sort or a symbol has the name.
    fn is_name(&self, name: &[u8]) -> bool
        ensures { result ≡ is_found (find_name (names (seen self.now).signature) name.now) }
    {
        self.signature.sort_named(name).is_some() || self.signature.symbol_named(name).is_some()
    }

    // Whether the sorts of a symbol are declared, and its arguments at most four.
    fn check_sorts(&self, args: &[u64], sort: u64) -> Result<(), ContentFault>
        ensures { result ≡ verdict (sorts_fault (seen self.now) args.now sort) tt }
    {
        if !self.is_sort(sort) || !self.are_sorts(args) {
            return Err(ContentFault::UndeclaredSort);
        }
        if args.len() > MOST_ARGUMENTS {
            return Err(ContentFault::TooManyArguments);
        }
        Ok(())
    }

    fn is_sort(&self, sort: u64) -> bool
        ensures { result ≡ nat_lt sort (length (seen self.now).signature.sorts) }
    {
        sort < self.signature.sort_count() as u64
    }

    // Whether all of some sorts are declared.
    // One `all`, as `is_value` of words and `all_follow` of names are.
    fn are_sorts(&self, sorts: &[u64]) -> bool
        ensures { result ≡ all_below (length (seen self.now).signature.sorts) sorts.now }
    {
        sorts.iter().all(|sort| self.is_sort(*sort))
    }
}

// Whether a name is a word of the text format.
fn is_keyword(name: &[u8]) -> bool
    ensures { result ≡ is_keyword name.now }
{
    matches!(name, b"sort" | b"con" | b"fun" | b"rules" | b"end")
}

// A symbol that is no operation, under the next symbol number of a signature.
fn add_symbol(
    signature: &mut Signature,
    name: Name,
    role: Role,
    args: &[u8],
    sort: u8,
) -> Option<u8>
    requires { same_role role Operation ≡ false }
    ensures { Changed (add_symbol (declaring role name args.now sort) (view signature.old)) result signature.old signature.new }
{
    // A match on the role, which is a part of the declaration and no step to run.
    match role {
        Role::Constructor => signature.add_constructor(name, args, sort),
        Role::Function | Role::Operation => signature.add_function(name, args, sort),
    }
}

// Sort numbers as bytes.
// No heap: an array of four, of which as many count as there are sorts.
fn narrowed(sorts: &[u64]) -> [u8; MOST_ARGUMENTS]
    requires few { length sorts.now ≤ 4 }
    requires small { all_below 16 sorts.now ≡ true }
    ensures { take (length sorts.now) result ≡ sorts.now }
{
    from_fn(|i| sort_at(sorts, i))
}

// The sort at a place, or 0 past the last.
fn sort_at(sorts: &[u64], i: usize) -> u8
    requires { all_below 16 sorts.now ≡ true }
    ensures { result ≡ slice_index_or sorts.now i 0 }
{
    // The cast loses nothing: sorts are below 16.
    sorts.get(i).map_or(0, |sort| *sort as u8)
}
