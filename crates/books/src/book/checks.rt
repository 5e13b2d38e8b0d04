// Checking drafts.
ghost use Rattle.std.specs.Prelude.{◌≡◌};
ghost use Rattle.terms.specs.Views.{view};
ghost use Rattle.drafts.specs.Drafts.{empty as empty_draft};
ghost use Rattle.drafts.specs.Stores.{seen};
ghost use Rattle.trees.specs.Standing.{refusal};
ghost use Rattle.books.specs.Holding.{held, trees_of, Checks};
ghost use Rattle.books.specs.Statements.{SoundBook, ExactCheck};

use super::Book;
use crate::rules::RuleSet;
use drafts::draft::{Declared, Draft};
use trees::fault::CheckFault;
use trees::trees::Trees;

impl Book {
    // The empty book: what is built in.
    pub fn empty() -> Book
        ensures { held result ≡ empty_draft }
    {
        Book {
            rules: RuleSet {
                draft: Draft::new(),
                trees: Trees::none(),
            },
        }
    }

    // The draft as a book in this place, if no rule is missing and every function has a complete tree.
    pub fn check(&mut self, draft: &Draft) -> Result<(), CheckFault>
        ensures checks { Checks (seen draft.now) result self.old self.new }
        ensures exact { ExactCheck (seen draft.now) (refusal result) }
    {
        let trees = Trees::of(draft)?;
        *self = Book {
            rules: RuleSet {
                draft: *draft,
                trees,
            },
        };
        Ok(())
    }

    // The sorts and symbols, and how many rules each symbol promises.
    pub fn declared(&self) -> Declared<'_>
        ensures signature { view result.signature.now ≡ (held self.now).signature }
        ensures promised { result.promised.now ≡ (held self.now).promised }
        ensures sound { SoundBook (held self.now) (trees_of self.now) }
    {
        self.rules.declared()
    }
}
