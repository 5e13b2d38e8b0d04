// Opening positions.
ghost use Rattle.std.specs.Prelude.{◌≡◌, ◌+◌, ◌<◌, ◌≤◌, [], ◌∷◌, ◌++◌, length};
ghost use Rattle.rewriting.specs.Growing.{below, opened as the_opened};
ghost use Rattle.trees.specs.Views.{steps_of};
ghost use Rattle.trees.specs.Opens.{open_of, paths_of};

use super::Open;
use crate::path::Path;
use terms::row::Row;

impl Open {
    // The open positions of a call with so many arguments.
    // At most four, here, in `push_below` and in `push_opened`: a type of arities would be made for each call and taken apart in it.
    pub(crate) fn of_call(arity: usize) -> Open
        requires { arity ≤ 4 }
        ensures { open_of result ≡ below [] 1 arity }
    {
        let mut open = Open::none();
        open.push_below(&Path::root(), arity);
        open
    }

    // No position. As with nodes, a row with a filler of its own.
    pub(crate) fn none() -> Open
        ensures { open_of result ≡ [] }
    {
        Open {
            paths: Row::new(Path::root()),
        }
    }

    fn push(&mut self, path: Path)
        requires { length (open_of self.old) < 64 }
        ensures { open_of self.new ≡ open_of self.old ++ (steps_of path ∷ []) }
    {
        self.paths.push(path);
    }

    // The positions of so many arguments below a position.
    fn push_below(&mut self, path: &Path, arity: usize)
        requires few { arity ≤ 4 }
        requires short { length (steps_of path.now) < 64 }
        requires room { length (open_of self.old) + arity ≤ 64 }
        ensures { open_of self.new ≡ open_of self.old ++ below (steps_of path.now) 1 arity }
    {
        // By number: the arguments' own numbers are the steps; the cast loses nothing, as they are at most four.
        for i in 0..arity {
            self.push(path.down(i as u8 + 1));
        }
    }

    // Those of another, with so many arguments below a position in its place.
    // Added here and not answered: an answer of this size is moved once more for each branch.
    pub(crate) fn push_opened(&mut self, others: &Open, path: &Path, arity: usize)
        requires few { arity ≤ 4 }
        requires short { length (steps_of path.now) < 64 }
        requires room { length (open_of self.old) + length (the_opened (open_of others.now) (steps_of path.now) arity) ≤ 64 }
        ensures { open_of self.new ≡ open_of self.old ++ the_opened (open_of others.now) (steps_of path.now) arity }
    {
        for other in others.paths() {
            if other == path {
                self.push_below(path, arity);
            } else {
                self.push(*other);
            }
        }
    }

    // The open positions as paths, in their order.
    pub(crate) fn paths(&self) -> &[Path]
        ensures { result.now ≡ paths_of self.now }
    {
        self.paths.as_slice()
    }
}
