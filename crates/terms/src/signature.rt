// Signatures: sorts and symbols in rows.
use crate::name::Name;
use crate::row::Row;

pub mod builds;
pub mod symbols;

// The most sorts, symbols and arguments of a symbol.
pub const MOST_SORTS: usize = 16;

pub const MOST_SYMBOLS: usize = 96;

pub const MOST_ARGUMENTS: usize = 4;

// What a symbol is for: plus, minus and atmost are operations.
#[derive(Clone, Copy, PartialEq, Eq, Debug)]
pub enum Role {
    Constructor,
    Function,
    Operation,
}

// A declared symbol: its name and role, the sorts of its arguments, its sort.
#[derive(Clone, Copy)]
struct Entry {
    name: Name,
    role: Role,
    args: Row<u8, MOST_ARGUMENTS>,
    sort: u8,
}

// Sorts and symbols; the place of each is its number.
#[derive(Clone, Copy)]
pub struct Signature {
    sorts: Row<Name, MOST_SORTS>,
    symbols: Row<Entry, MOST_SYMBOLS>,
}
