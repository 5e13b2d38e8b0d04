// Names of sorts and symbols.
ghost use Rattle.std.specs.Prelude.{◌≡◌, true};
ghost use Rattle.terms.specs.Names.{well_formed};
ghost use Rattle.terms.specs.Rows.{items};

use crate::row::Row;

pub mod reads;

// The most bytes of a name.
pub const LONGEST_NAME: usize = 12;

// The name of a sort or symbol: 1 to 12 bytes, first a to z, then a to z or 0 to 9.
#[derive(Clone, Copy)]
pub struct Name {
    bytes: Row<u8, LONGEST_NAME>,
    ghost formed: { well_formed (items bytes) ≡ true },
}
