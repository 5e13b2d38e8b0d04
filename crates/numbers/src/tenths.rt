// Signed tenths: a cell read in two's complement, -9,999 to 9,999, and results held to those ends.
ghost use Rattle.std.specs.Prelude.{◌≡◌};
ghost use Rattle.numbers.specs.Tenths.{tenths, cell_of, held};
ghost use Rattle.numbers.specs.Laws.{tenths_sound};

use crate::kind::NumberKind;

const LEAST: i32 = -9_999;

const MOST: i32 = 9_999;

const REST: u32 = 0;

// The kind of signed tenths. It holds nothing.
#[derive(Clone, Copy, Debug, PartialEq, Eq)]
pub struct SignedTenths;

// The cell of a value held to the ends.
fn hold(value: i32) -> u32
    ensures { result ≡ cell_of (held value) }
{
    value.clamp(LEAST, MOST).cast_unsigned()
}

impl NumberKind for SignedTenths {
    ghost meaning = { λ _. tenths };

    ghost sound = { λ _. tenths_sound };

    fn lawful(&self, cell: u32) -> bool {
        (LEAST..=MOST).contains(&cell.cast_signed())
    }

    fn plus(&self, a: u32, b: u32) -> u32 {
        if self.lawful(a) && self.lawful(b) {
            hold(a.cast_signed() + b.cast_signed())
        } else {
            self.rest()
        }
    }

    fn minus(&self, a: u32, b: u32) -> u32 {
        if self.lawful(a) && self.lawful(b) {
            hold(a.cast_signed() - b.cast_signed())
        } else {
            self.rest()
        }
    }

    // As in the other kinds, but by the signed readings.
    fn atmost(&self, a: u32, b: u32) -> bool {
        self.lawful(a) && self.lawful(b) && a.cast_signed() <= b.cast_signed()
    }

    fn rest(&self) -> u32 {
        REST
    }
}
