// Where the letters of a rule stand in the pool: the left side's from the start on, then the right side's.
// No heap: the words of all rules lie in one pool.
#[derive(Clone, Copy, PartialEq, Eq, Debug)]
pub struct Span {
    pub start: usize,
    pub left: usize,
    pub right: usize,
}
