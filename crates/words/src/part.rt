// A part of a word: where it starts, and how many letters it has.
// A start and a length, as `part` promises them; a range would have the length only by a difference.
#[derive(Clone, Copy, PartialEq, Eq, Debug)]
pub struct Part {
    pub start: usize,
    pub len: usize,
}
