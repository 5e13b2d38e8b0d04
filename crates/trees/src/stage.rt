// Stages of growing.
use crate::masks::Mask;
use crate::open::Open;

// Where a tree is grown: the open positions, and the rules that remain.
// Borrowed: four and a half thousand bytes would be moved for each branch. By value in calls: behind a reference, a check of a book was seen to move its trees once more.
#[derive(Clone, Copy)]
pub(crate) struct Stage<'a> {
    pub(crate) positions: &'a Open,
    pub(crate) remain: &'a Mask,
}
