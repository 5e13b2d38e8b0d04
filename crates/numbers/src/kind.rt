// What a number kind is.
ghost use Rattle.std.specs.Prelude.{◌≡◌, true};
ghost use Rattle.numbers.specs.Meaning.{Meaning, Sound, lawful_answer, plus_answer, minus_answer, atmost_answer, rest_answer};

// Five questions about 32-bit cells. No question changes a kind.
pub trait NumberKind {
    // What the cells mean.
    ghost meaning: { Self → Meaning };

    // Is the cell in the set?
    fn lawful(&self, cell: u32) -> bool
        ensures { result ≡ lawful_answer (meaning self.now) cell };

    // The sum, or the rest cell if an argument is unlawful.
    fn plus(&self, a: u32, b: u32) -> u32
        ensures { result ≡ plus_answer (meaning self.now) a b };

    // The difference, or the rest cell if an argument is unlawful.
    fn minus(&self, a: u32, b: u32) -> u32
        ensures { result ≡ minus_answer (meaning self.now) a b };

    // Are both cells lawful, and the first at most the second?
    fn atmost(&self, a: u32, b: u32) -> bool
        ensures { result ≡ atmost_answer (meaning self.now) a b };

    // The rest cell.
    fn rest(&self) -> u32
        ensures { result ≡ rest_answer (meaning self.now) };

    // The law that each kind owes.
    ghost sound: { (k : Self) → Sound (meaning k) };
}

// Every kind is sound, whatever it is made of; so its rest cell is lawful, and the answer is always yes.
// It stays a bool: a run can show it, and code that answers no somewhere is refused.
pub fn is_sound<K: NumberKind>(kind: &K) -> bool
    ensures sound { Sound (K.NumberKind.meaning kind.now) }
    ensures always { result ≡ true }
{
    kind.lawful(kind.rest())
}
