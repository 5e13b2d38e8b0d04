// The faults of words.
ghost use Rattle.std.specs.Prelude.{◌≡◌, Some};
ghost use Rattle.words.specs.Faults.{numbered};
ghost use Rattle.words.specs.Texts.{reason, fault_text};

use std::error::Error;
use std::fmt;

// What is wrong with a word that is to be a closed, sort-correct term, with lawful cells where a number kind is given.
// The index is that of the first letter at fault; `Whole` has the word's length where the word ends early.
#[derive(Clone, Copy, PartialEq, Eq, Debug)]
pub enum WordFault {
    Length,
    Letter(usize),
    Whole(usize),
    Sort(usize),
    Cell(usize),
}

impl WordFault {
    // The fault's number, and the index that it names: both at once, which a conversion to a number would not say.
    pub fn numbered(self) -> (u8, usize)
        ensures { result ≡ numbered self }
    {
        match self {
            WordFault::Length => (31, 0),
            WordFault::Letter(at) => (32, at),
            WordFault::Whole(at) => (33, at),
            WordFault::Sort(at) => (34, at),
            WordFault::Cell(at) => (35, at),
        }
    }
}

impl WordFault {
    // What is wrong, in words; `Display` writes them.
    fn reason(self) -> &'static str
        ensures { result.now ≡ reason self }
    {
        match self {
            WordFault::Length => "the word is empty or too long",
            WordFault::Letter(_) => "the number is no letter of a closed term",
            WordFault::Whole(_) => "the word is not one whole term",
            WordFault::Sort(_) => "the letter has not the sort due there",
            WordFault::Cell(_) => "the cell is unlawful",
        }
    }
}

impl fmt::Display for WordFault {
    ghost output = { λ fault. Some (fault_text fault) };

    fn fmt<W: fmt::Write>(&self, f: &mut fmt::Formatter<W>) -> fmt::Result {
        let (number, at) = self.numbered();
        let reason = self.reason();
        write!(f, "{number}: {reason} (letter {at})")
    }
}

impl Error for WordFault {}
