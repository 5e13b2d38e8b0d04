// A position at which every rule that remains has a constructor.
use crate::heads::Heads;
use crate::path::Path;

// The position, and for each place of a rule the symbol that it has there.
#[derive(Clone, Copy, PartialEq, Eq)]
pub(crate) struct Shared {
    pub(crate) path: Path,
    pub(crate) heads: Heads,
}
