// The function awaited, and adding rules.
ghost use Rattle.std.specs.Prelude.{◌≡◌, ◌+◌, ◌≤◌, ◌++◌, Some, length, option_map};
ghost use Rattle.std.specs.List.{slice_get};
ghost use Rattle.terms.specs.Rows.{items};
ghost use Rattle.drafts.specs.Drafts.{most_letters, sides, awaited as the_awaited};
ghost use Rattle.drafts.specs.Rules.{rule_refusal, add_rule};
ghost use Rattle.drafts.specs.Stores.{seen, Does, verdict};

use super::{Draft, MOST_LETTERS};
use crate::fault::RuleFault;
use crate::shape::{shape_faults, word_faults};
use crate::span::Span;
use terms::row::Row;

impl Draft {
    // The function whose rule comes next.
    pub fn awaited(&self) -> Option<u8>
        ensures { result ≡ the_awaited (seen self.now) }
    {
        let mut before = self.rule_count();
        // A loop: of a closure that counts down nothing is known.
        for (i, rules) in self.promises().iter().enumerate() {
            let promised = usize::from(*rules);
            if before < promised {
                // The cast loses nothing: there are at most 96 symbols.
                return Some(i as u8);
            }
            before -= promised;
        }
        None
    }

    // One rule more, for the function awaited.
    pub fn add_rule(&mut self, left: &[u64], right: &[u64]) -> Result<usize, RuleFault>
        ensures { Does (add_rule (seen self.old) (sides left.now right.now)) result self.old self.new }
    {
        self.rule_verdict(left, right)?;
        let span = lay(&mut self.letters, left, right).ok_or(RuleFault::NoRoom)?;
        self.rules.push(span).ok_or(RuleFault::NoRoom)
    }

    fn rule_verdict(&self, left: &[u64], right: &[u64]) -> Result<(), RuleFault>
        ensures { result ≡ verdict (rule_refusal (seen self.now) (sides left.now right.now)) tt }
    {
        let function = self.awaited().ok_or(RuleFault::NotAwaited)?;
        word_faults(&self.signature, left, right)?;
        shape_faults(&self.signature, function, left, right)?;
        if left.len() + right.len() > MOST_LETTERS - self.letters.as_slice().len() {
            return Err(RuleFault::NoRoom);
        }
        Ok(())
    }
}

// The letters of a rule at the end of the pool, and where they stand.
fn lay(letters: &mut Row<u64, MOST_LETTERS>, left: &[u64], right: &[u64]) -> Option<Span>
    requires { length (items letters.old) + (length left.now + length right.now) ≤ most_letters }
    ensures span { result ≡ Some (record { start = length (items letters.old); left = length left.now; right = length right.now }) }
    ensures pool { items letters.new ≡ items letters.old ++ (left.now ++ right.now) }
{
    let start = letters.extend(left)?;
    letters.extend(right)?;
    Some(Span {
        start,
        left: left.len(),
        right: right.len(),
    })
}
