// Pulse counts: cells 0 to 999,999, and results held to those ends.
ghost use Rattle.numbers.specs.Pulses.{pulses};
ghost use Rattle.numbers.specs.Laws.{pulses_sound};

use crate::kind::NumberKind;

const TOP: u32 = 999_999;

// Each kind names its own rest cell, though all three are 0: a kind is read and changed alone.
const REST: u32 = 0;

// The kind of pulse counts. It holds nothing.
#[derive(Clone, Copy, Debug, PartialEq, Eq)]
pub struct PulseCount;

impl NumberKind for PulseCount {
    ghost meaning = { λ _. pulses };

    ghost sound = { λ _. pulses_sound };

    fn lawful(&self, cell: u32) -> bool {
        cell <= TOP
    }

    // The frame of plus and minus stands in each kind: tried as one generic function, but its call leads back into this block.
    fn plus(&self, a: u32, b: u32) -> u32 {
        if self.lawful(a) && self.lawful(b) {
            (a + b).min(TOP)
        } else {
            self.rest()
        }
    }

    fn minus(&self, a: u32, b: u32) -> u32 {
        if self.lawful(a) && self.lawful(b) {
            a.saturating_sub(b)
        } else {
            self.rest()
        }
    }

    fn atmost(&self, a: u32, b: u32) -> bool {
        self.lawful(a) && self.lawful(b) && a <= b
    }

    fn rest(&self) -> u32 {
        REST
    }
}
