// Making rows, making them longer, and reading them.
ghost use Rattle.std.specs.Prelude.{◌≡◌, [], ◌∷◌};
ghost use Rattle.terms.specs.Rows.{items, Longer};

use super::Row;

impl<T: Copy, const N: usize> Row<T, N> {
    // The empty row; until more is added, the array holds copies of the filler.
    pub fn new(filler: T) -> Row<T, N>
        ensures { items result ≡ [] }
    {
        Row {
            array: [filler; N],
            count: 0,
        }
    }

    // The things, in their order.
    pub fn as_slice(&self) -> &[T]
        ensures { result.now ≡ items self.now }
    {
        let array = &self.array[..];
        &array[..self.count]
    }

    // One thing more at the end, and its place, if there is room.
    pub fn push(&mut self, item: T) -> Option<usize>
        ensures { Longer (item ∷ []) self.old result self.new }
    {
        let at = self.count;
        if at == N {
            return None;
        }
        self.array[at] = item;
        self.count = at + 1;
        Some(at)
    }

    // More things at the end, and the place of the first, if there is room for all.
    pub fn extend(&mut self, more: &[T]) -> Option<usize>
        ensures { Longer more.now self.old result self.new }
    {
        let at = self.count;
        if more.len() > N - at {
            return None;
        }
        let array = &mut self.array[..];
        array[at..at + more.len()].copy_from_slice(more);
        self.count = at + more.len();
        Some(at)
    }
}
