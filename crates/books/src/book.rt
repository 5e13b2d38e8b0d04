// Books.
ghost use Rattle.std.specs.Prelude.{◌≡◌, true};
ghost use Rattle.drafts.specs.Stores.{seen};
ghost use Rattle.books.specs.Soundness.{is_accepted};

use crate::rules::RuleSet;

pub mod checks;

// A checked book: a rule set in which every function has a complete tree.
#[derive(Clone, Copy)]
pub struct Book {
    pub rules: RuleSet,
    ghost accepted: { is_accepted (seen rules.draft) ≡ true },
}
