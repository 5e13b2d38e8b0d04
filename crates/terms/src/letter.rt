// Letters: what a 64-bit number says.
ghost use Rattle.std.specs.Prelude.{◌≡◌, Some};
ghost use Rattle.terms.specs.Letters.{number_of, no_letter_text, Reads};

use std::error::Error;
use std::fmt;

// The numbers of symbols, 96 of them, and of variables, eight.
pub const SYMBOLS: u64 = 0x1_0000_0000;

const SYMBOLS_END: u64 = SYMBOLS + 96;

pub const VARIABLES: u64 = 0x2_0000_0000;

const VARIABLES_END: u64 = VARIABLES + 8;

// The letters of the symbols that are built in.
pub const PLUS: u64 = SYMBOLS;

pub const MINUS: u64 = SYMBOLS + 1;

pub const ATMOST: u64 = SYMBOLS + 2;

pub const TRUE: u64 = SYMBOLS + 3;

pub const FALSE: u64 = SYMBOLS + 4;

// A letter, as a 64-bit number says it: a number cell, a symbol or a variable.
#[derive(Clone, Copy, PartialEq, Eq, Debug)]
pub enum Letter {
    Cell(u32),
    Symbol(u8),
    Variable(u8),
}

// A number that is no letter.
#[derive(Clone, Copy, PartialEq, Eq, Debug)]
pub struct NoLetter {
    pub number: u64,
}

impl fmt::Display for NoLetter {
    ghost output = { λ e. Some (no_letter_text e.number) };

    fn fmt<W: fmt::Write>(&self, f: &mut fmt::Formatter<W>) -> fmt::Result {
        write!(f, "{} is no letter", self.number)
    }
}

impl Error for NoLetter {}

// The letter that has this number.
impl TryFrom<u64> for Letter {
    type Error = NoLetter;

    ghost try_from_gives = { Reads };

    // The casts lose nothing: each branch knows the bound.
    fn try_from(number: u64) -> Result<Letter, NoLetter> {
        if number < SYMBOLS {
            Ok(Letter::Cell(number as u32))
        } else if number < SYMBOLS_END {
            Ok(Letter::Symbol((number - SYMBOLS) as u8))
        } else if (VARIABLES..VARIABLES_END).contains(&number) {
            Ok(Letter::Variable((number - VARIABLES) as u8))
        } else {
            Err(NoLetter { number })
        }
    }
}

// The number of a letter.
impl From<Letter> for u64 {
    ghost from_gives = { λ letter number. number ≡ number_of letter };

    fn from(letter: Letter) -> u64 {
        match letter {
            Letter::Cell(cell) => u64::from(cell),
            Letter::Symbol(symbol) => SYMBOLS + u64::from(symbol),
            Letter::Variable(variable) => VARIABLES + u64::from(variable),
        }
    }
}
