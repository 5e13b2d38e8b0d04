// What the tour declares: its letters, with those of its variables, and its sorts. Each test names its own.
use terms::letter::{SYMBOLS, VARIABLES};

pub const ZERO: u64 = SYMBOLS + 5;

pub const UP: u64 = SYMBOLS + 6;

pub const MEET: u64 = SYMBOLS + 7;

pub const X: u64 = VARIABLES;

pub const Y: u64 = VARIABLES + 1;

// The sort truth, which is built in.
pub const TRUTH: u64 = 1;

// The sort level, the first that is declared.
pub const LEVEL: u64 = 2;
