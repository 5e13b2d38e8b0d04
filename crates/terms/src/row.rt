// Rows: lists of at most N things, in arrays with counts.
ghost use Rattle.std.specs.Prelude.{◌≡◌, ◌≤◌, ⊤, length};

use std::alloc::AllocError;

pub mod holds;

// A list of at most N things; what lies past the count means nothing.
#[derive(Copy)]
pub struct Row<T: Copy, const N: usize> {
    // No heap: an array, and the count of what it holds.
    array: [T; N],
    count: usize,
    ghost long: { length array ≡ N },
    ghost fits: { count ≤ N },
}

// Written out: Clone cannot be derived beside ghost fields with a type parameter.
impl<T: Copy, const N: usize> Clone for Row<T, N> {
    ghost is_clone = { λ row other. other ≡ row };

    ghost is_infallible = { λ _. ⊤ };

    fn clone(&self) -> Result<Self, AllocError> {
        Ok(*self)
    }
}
