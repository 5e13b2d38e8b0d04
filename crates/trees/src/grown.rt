// What growing comes to.
use crate::node::Kind;

// A tree that was grown: its root, and whether every branch has a child for each constructor of its sort.
// A flag beside the root: the root is stored below another also where its tree is not complete.
#[derive(Clone, Copy, PartialEq, Eq)]
pub(crate) struct Grown {
    pub(crate) kind: Kind,
    pub(crate) complete: bool,
}
