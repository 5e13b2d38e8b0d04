// Building signatures.
ghost use Rattle.std.specs.Prelude.{◌≡◌, true, length, if◌then◌else◌, Some, None, nat_le, option_map};
ghost use Rattle.terms.specs.declared.signature.Role.TheVariants.{Constructor, Function};
ghost use Rattle.terms.specs.Signatures.{built_in, nothing, add_sort, add_symbol};
ghost use Rattle.terms.specs.Views.{bytes_of, declaration, declaring, view, Changed};

use super::{Entry, Role, Signature};
use crate::name::Name;
use crate::row::Row;

impl Entry {
    // A symbol with at most four arguments.
    // Name, role, sorts and sort, as a symbol is declared: every entry that stands is made of them here; `empty` makes a filler besides.
    fn new(name: Name, role: Role, args: &[u8], sort: u8) -> Option<Entry>
        ensures { option_map declaration result ≡ (if nat_le (length args.now) 4 then Some (declaring role name args.now sort) else None) }
    {
        let mut kept = Row::new(0);
        kept.extend(args)?;
        Some(Entry {
            name,
            role,
            args: kept,
            sort,
        })
    }
}

impl Signature {
    // The sorts number and truth, the operations plus, minus and atmost, the constructors true and false.
    pub fn built_in() -> Signature
        ensures { view result ≡ built_in }
    {
        let mut signature = Signature::empty();
        signature.add_sort(Name::known(b"number"));
        signature.add_sort(Name::known(b"truth"));
        signature.add_symbol(Name::known(b"plus"), Role::Operation, &[0, 0], 0);
        signature.add_symbol(Name::known(b"minus"), Role::Operation, &[0, 0], 0);
        signature.add_symbol(Name::known(b"atmost"), Role::Operation, &[0, 0], 1);
        signature.add_symbol(Name::known(b"true"), Role::Constructor, &[], 1);
        signature.add_symbol(Name::known(b"false"), Role::Constructor, &[], 1);
        signature
    }

    // No sorts and no symbols.
    fn empty() -> Signature
        ensures { view result ≡ nothing }
    {
        let filler = Name::known(b"number");
        Signature {
            sorts: Row::new(filler),
            symbols: Row::new(Entry {
                name: filler,
                role: Role::Operation,
                args: Row::new(0),
                sort: 0,
            }),
        }
    }

    // One sort more, under the next number, if one is left.
    pub fn add_sort(&mut self, name: Name) -> Option<u8>
        ensures { Changed (add_sort (bytes_of name) (view self.old)) result self.old self.new }
    {
        // The cast loses nothing: places of sorts are below 16.
        Some(self.sorts.push(name)? as u8)
    }

    // One constructor more, under the next symbol number, if one is left and there are at most four arguments.
    // `add_function` beside it, both one call: with the role as a parameter a caller could declare an operation.
    pub fn add_constructor(&mut self, name: Name, args: &[u8], sort: u8) -> Option<u8>
        ensures { Changed (add_symbol (declaring Constructor name args.now sort) (view self.old)) result self.old self.new }
    {
        self.add_symbol(name, Role::Constructor, args, sort)
    }

    // One function more.
    pub fn add_function(&mut self, name: Name, args: &[u8], sort: u8) -> Option<u8>
        ensures { Changed (add_symbol (declaring Function name args.now sort) (view self.old)) result self.old self.new }
    {
        self.add_symbol(name, Role::Function, args, sort)
    }

    fn add_symbol(&mut self, name: Name, role: Role, args: &[u8], sort: u8) -> Option<u8>
        ensures { Changed (add_symbol (declaring role name args.now sort) (view self.old)) result self.old self.new }
    {
        let entry = Entry::new(name, role, args, sort)?;
        // The cast loses nothing: places of symbols are below 96.
        Some(self.symbols.push(entry)? as u8)
    }
}
