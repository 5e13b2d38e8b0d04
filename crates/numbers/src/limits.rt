// Limits on any kind below.
ghost use Rattle.std.specs.Prelude.{◌≡◌, ◌^◌, ◌<◌, true};
ghost use Rattle.numbers.specs.Meaning.{Lawful};
ghost use Rattle.numbers.specs.Limits.{limits, lower_end, upper_end, both_within, held, are_ends, stored};
ghost use Rattle.numbers.specs.Bounds.{stored_sound};

use crate::kind::NumberKind;

// Any kind below, held to the cells from a lower to an upper one.
#[derive(Drop)]
pub struct Limits<K: NumberKind> {
    below: K,
    lower: u32,
    upper: u32,
    ghost cell: { lower < 2 ^ 32 },
}

impl<K: NumberKind> Limits<K> {
    // Limits from any two cells: the ends that stand are stored, so that no question has to find them again.
    pub fn new(below: K, lower: u32, upper: u32) -> Limits<K>
        ensures below { result.below ≡ below }
        ensures low { result.lower ≡ lower_end (K.NumberKind.meaning below) lower }
        ensures high { result.upper ≡ upper_end (K.NumberKind.meaning below) lower upper }
        ensures means { stored (K.NumberKind.meaning result.below) result.lower result.upper ≡ limits (K.NumberKind.meaning below) lower upper }
    {
        let low = if below.lawful(lower) {
            lower
        } else {
            below.rest()
        };
        let high = if below.atmost(low, upper) { upper } else { low };
        Limits {
            below,
            lower: low,
            upper: high,
        }
    }

    // The lower and the upper end that stand.
    pub fn ends(&self) -> (u32, u32)
        ensures { result ≡ (self.now.lower, self.now.upper) }
    {
        (self.lower, self.upper)
    }

    // Are both cells from the lower to the upper end? The order of the two is asked first, so that three questions do.
    fn both_within(&self, a: u32, b: u32) -> bool
        ensures { result ≡ both_within (K.NumberKind.meaning self.now.below) self.now.lower self.now.upper a b }
    {
        let (low, high) = if self.below.atmost(a, b) {
            (a, b)
        } else {
            (b, a)
        };
        self.below.atmost(self.lower, low) && self.below.atmost(high, self.upper)
    }

    // The cell, or the nearer end where it is outside. The clauses name the meaning below once for each word.
    fn hold(&self, cell: u32) -> u32
        requires ends { are_ends (K.NumberKind.meaning self.now.below) self.now.lower self.now.upper ≡ true }
        requires lawful { Lawful (K.NumberKind.meaning self.now.below) cell }
        ensures { result ≡ held (K.NumberKind.meaning self.now.below) self.now.lower self.now.upper cell }
    {
        if !self.below.atmost(self.lower, cell) {
            self.lower
        } else if !self.below.atmost(cell, self.upper) {
            self.upper
        } else {
            cell
        }
    }
}

impl<K: NumberKind> NumberKind for Limits<K> {
    ghost meaning = { λ k. stored (K.NumberKind.meaning k.below) k.lower k.upper };

    ghost sound = { λ k. stored_sound (K.NumberKind.meaning k.below) (K.NumberKind.sound k.below) k.lower k.upper k.cell };

    fn lawful(&self, cell: u32) -> bool {
        cell == self.lower
            || self.below.atmost(self.lower, cell) && self.below.atmost(cell, self.upper)
    }

    // Plus and minus have one frame: tried as a generic function over a closure, but its call leads back into this block.
    fn plus(&self, a: u32, b: u32) -> u32 {
        if self.both_within(a, b) {
            self.hold(self.below.plus(a, b))
        } else {
            self.rest()
        }
    }

    fn minus(&self, a: u32, b: u32) -> u32 {
        if self.both_within(a, b) {
            self.hold(self.below.minus(a, b))
        } else {
            self.rest()
        }
    }

    fn atmost(&self, a: u32, b: u32) -> bool {
        a == self.lower && b == self.lower
            || self.below.atmost(self.lower, a)
                && self.below.atmost(a, b)
                && self.below.atmost(b, self.upper)
    }

    fn rest(&self) -> u32 {
        self.ends().0
    }
}
