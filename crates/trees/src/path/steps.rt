// Making paths and reading them.
ghost use Rattle.std.specs.Prelude.{◌≡◌, ◌<◌, [], ◌∷◌, ◌++◌, length};
ghost use Rattle.trees.specs.Views.{steps_of};

use super::Path;
use terms::row::Row;

impl Path {
    // The path of the root: no steps.
    pub(crate) fn root() -> Path
        ensures { steps_of result ≡ [] }
    {
        Path { steps: Row::new(0) }
    }

    // The argument numbers.
    pub fn steps(&self) -> &[u8]
        ensures { result.now ≡ steps_of self.now }
    {
        self.steps.as_slice()
    }

    // One step further down.
    pub(crate) fn down(&self, argument: u8) -> Path
        requires { length (steps_of self.now) < 64 }
        ensures { steps_of result ≡ steps_of self.now ++ (argument ∷ []) }
    {
        let mut steps = self.steps;
        steps.push(argument);
        Path { steps }
    }
}
