// Drafts: books while they are written.
ghost use Rattle.std.specs.Prelude.{◌≡◌, true, length};
ghost use Rattle.drafts.specs.Views.{drafted, in_a_row};
ghost use Rattle.terms.specs.Rows.{items};
ghost use Rattle.terms.specs.Views.{view};
ghost use Rattle.drafts.specs.Soundness.{is_sound, three_operations};

use crate::span::Span;
use terms::row::Row;
use terms::signature::{MOST_SYMBOLS, Signature};

pub mod contents;
pub mod reads;
pub mod rules;

// The most rules of a draft.
pub const MOST_RULES: usize = 96;

// The most letters of a side.
pub const LONGEST_SIDE: usize = 64;

// The most letters of all rules, both sides together.
pub const MOST_LETTERS: usize = 1024;

// A book while it is written: sorts and symbols, the rules that each symbol promises, and the rules, their letters in one pool.
#[derive(Clone, Copy)]
pub struct Draft {
    signature: Signature,
    // No row: the signature counts the symbols. 0 stands where there is no function, as sums and counts take it.
    promised: [u8; MOST_SYMBOLS],
    letters: Row<u64, MOST_LETTERS>,
    rules: Row<Span, MOST_RULES>,
    ghost laid: { in_a_row 0 (items rules) (length (items letters)) ≡ true },
    ghost sound: { is_sound (drafted signature promised (items letters) (items rules)) ≡ true },
    ghost operations: { three_operations (view signature) ≡ true },
}

// What a draft declares: its sorts and symbols, and for each symbol how many rules it promises.
#[derive(Clone, Copy)]
pub struct Declared<'a> {
    pub signature: &'a Signature,
    pub promised: &'a [u8],
}
