// Taking the next sort due, and putting more before it.
ghost use Rattle.std.specs.Prelude.{◌≡◌, ◌+◌, ◌≤◌, [], ◌∷◌, ◌++◌, length};
ghost use Rattle.drafts.specs.Dues.{pending, TakesFirst};

use super::Due;

impl Due {
    // One sort.
    pub(crate) fn one(sort: u8) -> Due
        ensures { pending result ≡ sort ∷ [] }
    {
        let mut sorts = [0; 256];
        sorts[255] = sort;
        Due { sorts, start: 255 }
    }

    // The next sort, which is then due no more.
    pub(crate) fn next(&mut self) -> Option<u8>
        ensures { TakesFirst (pending self.old) result (pending self.new) }
    {
        let sort = *self.sorts.get(self.start)?;
        self.start += 1;
        Some(sort)
    }

    // These sorts before those that are due.
    pub(crate) fn put_first(&mut self, sorts: &[u8])
        requires { length sorts.now + length (pending self.old) ≤ 256 }
        ensures { pending self.new ≡ sorts.now ++ pending self.old }
    {
        let start = self.start - sorts.len();
        self.sorts[start..self.start].copy_from_slice(sorts);
        self.start = start;
    }
}
