// Drafts that are checked by computation. A theorem alone: the contract is the promise, and nothing is answered.
ghost use Rattle.books.specs.Examples.{CheckedExamples};

// Two drafts that are books, one with no tree, one with an incomplete tree, and one whose rules are missing; and where the nodes of one lie.
pub fn checked_examples()
    ensures { CheckedExamples }
{}
