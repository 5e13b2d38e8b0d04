// Whether two paths are the same position.
ghost use Rattle.std.specs.Str.{bytes_eq};
ghost use Rattle.std.proofs.Common.{rules};
ghost use Rattle.std.specs.Cmp.Rules.{comparing};
ghost use Rattle.trees.specs.Views.{steps_of};

use super::Path;

// By the steps: what lies past them in the row is no part of a position.
impl PartialEq for Path {
    ghost eq = { λ a b. bytes_eq (steps_of a) (steps_of b) };

    ghost laws = { Prim.search (comparing, rules) };

    fn eq(&self, other: &Path) -> bool {
        self.steps() == other.steps()
    }
}

impl Eq for Path {
    ghost laws = { Prim.search (comparing, rules) };
}
