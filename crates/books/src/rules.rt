// Rule sets: whole drafts with their trees.
ghost use Rattle.std.specs.Prelude.{◌≡◌, true};
ghost use Rattle.drafts.specs.Stores.{seen};
ghost use Rattle.books.specs.Soundness.{set_sound};

use drafts::draft::Draft;
use trees::trees::Trees;

pub mod reads;

// A draft that awaits no rule, with the nodes of the fixed tree of each function; whether the trees are complete is not asked.
#[derive(Clone, Copy)]
pub struct RuleSet {
    pub(crate) draft: Draft,
    pub(crate) trees: Trees,
    ghost sound: { set_sound (seen draft) trees ≡ true },
}
