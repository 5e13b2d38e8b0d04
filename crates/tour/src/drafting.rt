// The meet book written by calls, and calls that are refused on the way.
ghost use Rattle.std.specs.Prelude.{◌≡◌, IfOk, OnOk, codes};
ghost use Rattle.books.specs.Examples.{meet_begun, meet_draft};
ghost use Rattle.drafts.specs.Drafts.{empty};
ghost use Rattle.drafts.specs.Stores.{seen};
ghost use Rattle.tour.specs.Checked.{Named};

use crate::letters::{LEVEL, MEET, TRUTH, UP, X, Y, ZERO};
use drafts::draft::Draft;
use drafts::fault::{ContentFault, RuleFault};
use std::{fmt, io};
use terms::letter::{PLUS, TRUE};

// Why a call is refused.
#[derive(Clone, Copy)]
enum Refusal {
    Content(ContentFault),
    Rule(RuleFault),
}

impl From<ContentFault> for Refusal {
    fn from(fault: ContentFault) -> Refusal {
        Refusal::Content(fault)
    }
}

impl From<RuleFault> for Refusal {
    fn from(fault: RuleFault) -> Refusal {
        Refusal::Rule(fault)
    }
}

// The number of the refusal, and of a rule the side and letter.
impl fmt::Display for Refusal {
    fn fmt<W: fmt::Write>(&self, f: &mut fmt::Formatter<W>) -> fmt::Result {
        match self {
            Refusal::Content(fault) => write!(f, "refused {}", fault.number()),
            Refusal::Rule(fault) => {
                let (number, side, at) = fault.numbered();
                write!(f, "refused {number}, {side} letter {at}")
            }
        }
    }
}

// A call, with its number or its refusal. A function and no Display: it takes the answer apart and prints by the runtime.
fn tell<N: fmt::Display + Drop, F: Into<Refusal>>(
    rt: &HostRuntime,
    call: &str,
    answer: Result<N, F>,
) -> io::Result<()> {
    match answer {
        Ok(number) => println!(rt; "  {call}: {number}"),
        Err(fault) => {
            let refusal: Refusal = fault.into();
            println!(rt; "  {call}: {refusal}")
        }
    }
}

fn declare_contents(rt: &HostRuntime, draft: &mut Draft) -> io::Result<()>
    requires { seen draft.old ≡ empty }
    ensures { OnOk result (seen draft.new ≡ meet_begun) }
{
    tell(rt, "sort level", draft.declare_sort(b"level"))?;
    let zero = draft.declare_constructor(b"zero", &[], LEVEL);
    tell(rt, "con zero : level", zero)?;
    let up = draft.declare_constructor(b"up", &[LEVEL], LEVEL);
    tell(rt, "con up(level) : level", up)?;
    let meet = draft.declare_function(b"meet", &[LEVEL, LEVEL], LEVEL, 3);
    tell(rt, "fun meet(level, level) : level 3", meet)
}

fn refuse_contents(rt: &HostRuntime, draft: &mut Draft) -> io::Result<()>
    requires { seen draft.old ≡ meet_begun }
    ensures { OnOk result (seen draft.new ≡ meet_begun) }
{
    tell(rt, "sort Level", draft.declare_sort(b"Level"))?;
    tell(rt, "sort up", draft.declare_sort(b"up"))?;
    let unknown = draft.declare_constructor(b"top", &[9], LEVEL);
    tell(rt, "con top(sort 9) : level", unknown)?;
    let five = draft.declare_constructor(b"top", &[LEVEL; 5], LEVEL);
    tell(rt, "con top of five levels : level", five)?;
    let third = draft.declare_constructor(b"maybe", &[], TRUTH);
    tell(rt, "con maybe : truth", third)?;
    let none = draft.declare_function(b"idle", &[], LEVEL, 0);
    tell(rt, "fun idle : level 0", none)
}

fn refuse_sides(rt: &HostRuntime, draft: &mut Draft) -> io::Result<()>
    requires { seen draft.old ≡ meet_begun }
    ensures { OnOk result (seen draft.new ≡ meet_begun) }
{
    tell(rt, "nothing = zero", draft.add_rule(&[], &[ZERO]))?;
    let unknown = draft.add_rule(&[MEET, X, Y], &[MEET + 1]);
    tell(rt, "meet(X, Y) = symbol 8", unknown)?;
    let cell = draft.add_rule(&[MEET, X, 5], &[ZERO]);
    tell(rt, "meet(X, 5) = zero", cell)?;
    tell(rt, "meet(X) = zero", draft.add_rule(&[MEET, X], &[ZERO]))?;
    tell(rt, "up(X) = zero", draft.add_rule(&[UP, X], &[ZERO]))
}

fn refuse_shapes(rt: &HostRuntime, draft: &mut Draft) -> io::Result<()>
    requires { seen draft.old ≡ meet_begun }
    ensures { OnOk result (seen draft.new ≡ meet_begun) }
{
    let inner = draft.add_rule(&[MEET, X, MEET, X, Y], &[ZERO]);
    tell(rt, "meet(X, meet(X, Y)) = zero", inner)?;
    let twice = draft.add_rule(&[MEET, X, X], &[ZERO]);
    tell(rt, "meet(X, X) = zero", twice)?;
    let new = draft.add_rule(&[MEET, X, ZERO], &[UP, Y]);
    tell(rt, "meet(X, zero) = up(Y)", new)?;
    let left = draft.add_rule(&[MEET, X, TRUE], &[ZERO]);
    tell(rt, "meet(X, true) = zero", left)?;
    let right = draft.add_rule(&[MEET, X, Y], &[PLUS, 1, 2]);
    tell(rt, "meet(X, Y) = plus(1, 2)", right)
}

fn add_rules(rt: &HostRuntime, draft: &mut Draft) -> io::Result<()>
    requires { seen draft.old ≡ meet_begun }
    ensures { OnOk result (seen draft.new ≡ meet_draft) }
{
    let first = draft.add_rule(&[MEET, ZERO, Y], &[ZERO]);
    tell(rt, "meet(zero, Y) = zero", first)?;
    let second = draft.add_rule(&[MEET, UP, X, ZERO], &[ZERO]);
    tell(rt, "meet(up(X), zero) = zero", second)?;
    let third = draft.add_rule(&[MEET, UP, X, UP, Y], &[UP, MEET, X, Y]);
    tell(rt, "meet(up(X), up(Y)) = up(meet(X, Y))", third)?;
    let fourth = draft.add_rule(&[MEET, X, Y], &[ZERO]);
    tell(rt, "meet(X, Y) = zero", fourth)?;
    tell(rt, "sort late", draft.declare_sort(b"late"))
}

// Contents and rules of one draft, which is answered. What is refused changes nothing, so that the draft goes on as if it had not been.
pub fn show_draft(rt: &HostRuntime) -> anyhow::Result<Draft>
    ensures { IfOk result (λ d. Named (codes "meet") (seen d)) }
{
    let mut draft = Draft::new();
    println!(rt; "A book is drafted by calls, each with what it answers.")?;
    declare_contents(rt, &mut draft)?;
    println!(rt; "What cannot be added is refused by a number.")?;
    refuse_contents(rt, &mut draft)?;
    refuse_sides(rt, &mut draft)?;
    refuse_shapes(rt, &mut draft)?;
    println!(rt; "The rules follow, as many as were promised.")?;
    add_rules(rt, &mut draft)?;
    Ok(draft)
}
