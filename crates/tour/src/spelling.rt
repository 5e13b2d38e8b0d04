// How symbols, letters, parts of words and positions are printed.
ghost use Rattle.std.specs.Prelude.{◌≡◌, length};
ghost use Rattle.terms.specs.Views.{view};

use std::fmt;
use terms::letter::Letter;
use terms::signature::Signature;
use words::part::Part;

// A symbol by its name.
#[derive(Clone, Copy)]
pub struct Symbol<'a> {
    pub signature: &'a Signature,
    pub symbol: u8,
}

impl fmt::Display for Symbol<'_> {
    fn fmt<W: fmt::Write>(&self, f: &mut fmt::Formatter<W>) -> fmt::Result {
        match self.signature.symbol_name(self.symbol) {
            Some(name) => write!(f, "{name}"),
            None => f.write_str("?"),
        }
    }
}

// A letter by its name or number.
#[derive(Clone, Copy)]
struct Spelled<'a> {
    signature: &'a Signature,
    letter: u64,
}

impl fmt::Display for Spelled<'_> {
    fn fmt<W: fmt::Write>(&self, f: &mut fmt::Formatter<W>) -> fmt::Result {
        match Letter::try_from(self.letter) {
            Ok(Letter::Cell(cell)) => write!(f, "{cell}"),
            Ok(Letter::Variable(variable)) => write!(f, "X{variable}"),
            Ok(Letter::Symbol(symbol)) => {
                let signature = self.signature;
                write!(f, "{}", Symbol { signature, symbol })
            }
            Err(_) => f.write_str("?"),
        }
    }
}

// The letters of a part of a word, each after a blank.
#[derive(Clone, Copy)]
pub struct Letters<'a> {
    pub signature: &'a Signature,
    pub word: &'a [u64],
    pub part: Part,
}

impl<'a> Letters<'a> {
    // All of a word.
    pub fn whole(signature: &'a Signature, word: &'a [u64]) -> Letters<'a>
        ensures signature { view result.signature.now ≡ view signature.now }
        ensures word { result.word.now ≡ word.now }
        ensures part { (result.part.start ≡ 0) × (result.part.len ≡ length word.now) }
    {
        Letters {
            signature,
            word,
            part: Part {
                start: 0,
                len: word.len(),
            },
        }
    }
}

impl fmt::Display for Letters<'_> {
    fn fmt<W: fmt::Write>(&self, f: &mut fmt::Formatter<W>) -> fmt::Result {
        for letter in self.word.iter().skip(self.part.start).take(self.part.len) {
            let spelled = Spelled {
                signature: self.signature,
                letter: *letter,
            };
            write!(f, " {spelled}")?;
        }
        Ok(())
    }
}

// A position: argument numbers with dots between.
#[derive(Clone, Copy)]
pub struct Position<'a>(pub &'a [u8]);

impl fmt::Display for Position<'_> {
    fn fmt<W: fmt::Write>(&self, f: &mut fmt::Formatter<W>) -> fmt::Result {
        let Position(path) = self;
        let [first, rest @ ..] = path else {
            return f.write_str("root");
        };
        write!(f, "{first}")?;
        for number in rest {
            write!(f, ".{number}")?;
        }
        Ok(())
    }
}

// So many steps to the right, of two blanks each.
#[derive(Clone, Copy)]
pub struct Indent(pub usize);

impl fmt::Display for Indent {
    fn fmt<W: fmt::Write>(&self, f: &mut fmt::Formatter<W>) -> fmt::Result {
        let Indent(steps) = self;
        for _ in 0..*steps {
            f.write_str("  ")?;
        }
        Ok(())
    }
}
