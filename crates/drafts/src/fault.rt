// Why a call on a draft is refused.
ghost use Rattle.std.specs.Prelude.{◌≡◌, Some};
ghost use Rattle.drafts.specs.Faults.{content_number, rule_number};
ghost use Rattle.drafts.specs.Texts.{content_reason, content_text, side_text, rule_reason, rule_text};

use std::error::Error;
use std::fmt;

// Why a sort, a constructor or a function is not added.
#[derive(Clone, Copy, PartialEq, Eq, Debug)]
pub enum ContentFault {
    RuleStands,
    MalformedName,
    NameTaken,
    UndeclaredSort,
    TooManyArguments,
    BuiltInSort,
    WrongPromise,
    NoNumberLeft,
}

// A side of a rule.
#[derive(Clone, Copy, PartialEq, Eq, Debug)]
pub enum Side {
    Left,
    Right,
}

// Why a rule is not added, with the side and the index of the first letter at fault.
#[derive(Clone, Copy, PartialEq, Eq, Debug)]
pub enum RuleFault {
    NotAwaited,
    Length(Side),
    Letter(Side, usize),
    LeftCell(usize),
    Whole(Side, usize),
    OtherFunction,
    InnerFunction(usize),
    TwiceOnLeft(usize),
    OnlyOnRight(usize),
    Sort(Side, usize),
    NoRoom,
}

impl ContentFault {
    // The fault's number; the name says so, which a conversion would not.
    pub fn number(self) -> u8
        ensures { result ≡ content_number self }
    {
        match self {
            ContentFault::RuleStands => 1,
            ContentFault::MalformedName => 2,
            ContentFault::NameTaken => 3,
            ContentFault::UndeclaredSort => 4,
            ContentFault::TooManyArguments => 5,
            ContentFault::BuiltInSort => 6,
            ContentFault::WrongPromise => 7,
            ContentFault::NoNumberLeft => 8,
        }
    }
}

impl RuleFault {
    // The fault's number, and the side and the index of the letter at fault; the names of a conversion would not say so.
    pub fn numbered(self) -> (u8, Side, usize)
        ensures { result ≡ rule_number self }
    {
        match self {
            RuleFault::NotAwaited => (11, Side::Left, 0),
            RuleFault::Length(side) => (12, side, 0),
            RuleFault::Letter(side, at) => (13, side, at),
            RuleFault::LeftCell(at) => (14, Side::Left, at),
            RuleFault::Whole(side, at) => (15, side, at),
            RuleFault::OtherFunction => (16, Side::Left, 0),
            RuleFault::InnerFunction(at) => (17, Side::Left, at),
            RuleFault::TwiceOnLeft(at) => (18, Side::Left, at),
            RuleFault::OnlyOnRight(at) => (19, Side::Right, at),
            RuleFault::Sort(side, at) => (20, side, at),
            RuleFault::NoRoom => (21, Side::Left, 0),
        }
    }
}

impl ContentFault {
    // What is wrong, in words; `Display` writes them.
    fn reason(self) -> &'static str
        ensures { result.now ≡ content_reason self }
    {
        match self {
            ContentFault::RuleStands => "a rule stands already",
            ContentFault::MalformedName => "the name is malformed",
            ContentFault::NameTaken => "the name is taken",
            ContentFault::UndeclaredSort => "a sort is not declared",
            ContentFault::TooManyArguments => "there are more than four arguments",
            ContentFault::BuiltInSort => "a constructor may not make numbers or truths",
            ContentFault::WrongPromise => "the promise is no rule or too many",
            ContentFault::NoNumberLeft => "no number is left",
        }
    }
}

impl fmt::Display for ContentFault {
    ghost output = { λ fault. Some (content_text fault) };

    fn fmt<W: fmt::Write>(&self, f: &mut fmt::Formatter<W>) -> fmt::Result {
        let number = self.number();
        let reason = self.reason();
        write!(f, "{number}: {reason}")
    }
}

impl Error for ContentFault {}

impl fmt::Display for Side {
    ghost output = { λ side. Some (side_text side) };

    fn fmt<W: fmt::Write>(&self, f: &mut fmt::Formatter<W>) -> fmt::Result {
        f.write_str(match self {
            Side::Left => "left",
            Side::Right => "right",
        })
    }
}

impl RuleFault {
    // What is wrong, in words; `Display` writes them.
    fn reason(self) -> &'static str
        ensures { result.now ≡ rule_reason self }
    {
        match self {
            RuleFault::NotAwaited => "no rule is awaited",
            RuleFault::Length(_) => "the side is empty or too long",
            RuleFault::Letter(_, _) => "the number is no letter or an undeclared symbol",
            RuleFault::LeftCell(_) => "a number cell stands on the left",
            RuleFault::Whole(_, _) => "the side is not one whole term",
            RuleFault::OtherFunction => "the left side is not of the function awaited",
            RuleFault::InnerFunction(_) => "a function stands inside the left side",
            RuleFault::TwiceOnLeft(_) => "a variable stands twice on the left",
            RuleFault::OnlyOnRight(_) => "a variable stands on the right only",
            RuleFault::Sort(_, _) => "the letter has not the sort due there",
            RuleFault::NoRoom => "there is no room for the letters",
        }
    }
}

impl fmt::Display for RuleFault {
    ghost output = { λ fault. Some (rule_text fault) };

    fn fmt<W: fmt::Write>(&self, f: &mut fmt::Formatter<W>) -> fmt::Result {
        let (number, side, at) = self.numbered();
        let reason = self.reason();
        write!(f, "{number}: {reason} ({side} letter {at})")
    }
}

impl Error for RuleFault {}
