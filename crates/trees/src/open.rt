// Open positions.
use crate::path::Path;
use terms::row::Row;

mod opens;

// The most open positions.
const MOST_OPEN: usize = 64;

// The open positions of a pattern, where it has a variable, in word order.
#[derive(Clone, Copy)]
pub(crate) struct Open {
    paths: Row<Path, MOST_OPEN>,
}
