// Positions.
use terms::row::Row;

mod equal;
pub mod steps;

// The longest path.
pub const LONGEST_PATH: usize = 64;

// A position: argument numbers, counted from 1, from the root on.
#[derive(Clone, Copy)]
pub struct Path {
    steps: Row<u8, LONGEST_PATH>,
}
