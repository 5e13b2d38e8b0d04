// Why a draft is no book.
ghost use Rattle.std.specs.Prelude.{◌≡◌, Some};
ghost use Rattle.trees.specs.Faults.{check_fault_number, check_fault_reason, check_fault_text};

use std::error::Error;
use std::fmt;

// Why a draft is not accepted, with the function at fault.
#[derive(Clone, Copy, PartialEq, Eq, Debug)]
pub enum CheckFault {
    RulesMissing(u8),
    NoTree(u8),
    Incomplete(u8),
}

impl CheckFault {
    // The fault's number, and the function's. A `From` would not say which of the two is which.
    pub fn numbered(self) -> (u8, u8)
        ensures { result ≡ check_fault_number self }
    {
        match self {
            CheckFault::RulesMissing(function) => (22, function),
            CheckFault::NoTree(function) => (23, function),
            CheckFault::Incomplete(function) => (24, function),
        }
    }
}

impl CheckFault {
    // What is wrong, in words; `Display` writes them.
    fn reason(self) -> &'static str
        ensures { result.now ≡ check_fault_reason self }
    {
        match self {
            CheckFault::RulesMissing(_) => "rules are missing",
            CheckFault::NoTree(_) => "there is no tree",
            CheckFault::Incomplete(_) => "the tree is not complete",
        }
    }
}

// Prints the number, what is wrong, and the function at fault.
// As a fault of words, but each names its own thing.
impl fmt::Display for CheckFault {
    ghost output = { λ fault. Some (check_fault_text fault) };

    fn fmt<W: fmt::Write>(&self, f: &mut fmt::Formatter<W>) -> fmt::Result {
        let (number, function) = self.numbered();
        let reason = self.reason();
        write!(f, "{number}: {reason} (function {function})")
    }
}

impl Error for CheckFault {}
