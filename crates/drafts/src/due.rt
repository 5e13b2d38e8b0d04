// The sorts still due along a word.
ghost use Rattle.std.specs.Prelude.{◌≤◌};

mod takes;

// Sorts that are still due, the next one first; they stand at the end of the array.
#[derive(Clone, Copy)]
pub(crate) struct Due {
    // No heap, and no row: sorts are put in front.
    sorts: [u8; 256],
    start: usize,
    ghost fits: { start ≤ 256 },
}
