// The trip ring: cells 0 to 9,999, and results taken modulo 10,000.
ghost use Rattle.numbers.specs.Ring.{ring};
ghost use Rattle.numbers.specs.Laws.{ring_sound};

use crate::kind::NumberKind;

const ROUND: u32 = 10_000;

const REST: u32 = 0;

// The kind of trip rings. It holds nothing.
#[derive(Clone, Copy, Debug, PartialEq, Eq)]
pub struct TripRing;

impl NumberKind for TripRing {
    ghost meaning = { λ _. ring };

    ghost sound = { λ _. ring_sound };

    fn lawful(&self, cell: u32) -> bool {
        cell < ROUND
    }

    fn plus(&self, a: u32, b: u32) -> u32 {
        if self.lawful(a) && self.lawful(b) {
            (a + b) % ROUND
        } else {
            self.rest()
        }
    }

    fn minus(&self, a: u32, b: u32) -> u32 {
        if self.lawful(a) && self.lawful(b) {
            (a + (ROUND - b)) % ROUND
        } else {
            self.rest()
        }
    }

    // As with pulse counts: one line in each kind is shorter than a function of both with the last cell as a parameter.
    fn atmost(&self, a: u32, b: u32) -> bool {
        self.lawful(a) && self.lawful(b) && a <= b
    }

    fn rest(&self) -> u32 {
        REST
    }
}
