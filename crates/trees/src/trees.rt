// The trees of a draft.
ghost use Rattle.std.specs.Prelude.{◌≡◌, length};

use crate::store::Store;
use terms::signature::MOST_SYMBOLS;

pub mod grows;
pub mod reads;

// The nodes of all trees, and for each function the place of its tree's root.
#[derive(Clone, Copy)]
pub struct Trees {
    store: Store,
    // No heap: a place for each symbol, by its number.
    roots: [Option<usize>; MOST_SYMBOLS],
    ghost long: { length roots ≡ 96 },
}
