// Four drafts are checked; two of them are books, shown with their trees.
ghost use Rattle.std.specs.Prelude.{◌≡◌, IfOk, codes};
ghost use Rattle.drafts.specs.Drafts.{empty};
ghost use Rattle.drafts.specs.Stores.{seen};
ghost use Rattle.trees.specs.Checks.{check_fault};
ghost use Rattle.trees.specs.Standing.{refusal};
ghost use Rattle.books.specs.Holding.{held, after_check};
ghost use Rattle.tour.specs.Checked.{Named};

use crate::drafting::show_draft;
use crate::letters::{LEVEL, TRUTH, UP, X, ZERO};
use crate::spelling::{Indent, Letters, Position, Symbol};
use books::book::Book;
use drafts::draft::Draft;
use std::io;
use terms::letter::{FALSE, SYMBOLS, TRUE};
use terms::signature::MOST_SYMBOLS;
use trees::fault::CheckFault;
use trees::node::Kind;

// What lies deeper is not printed; no tree of the tour does.
const DEEPEST: usize = 8;

// pick(A, true) = A; pick(true, false) = false; pick(false, false) = true
// As `either` and `half` written out by its calls: the rules are to be read in the order in which they are added.
fn pick() -> anyhow::Result<Draft>
    ensures { IfOk result (λ d. Named (codes "pick") (seen d)) }
{
    let pick = SYMBOLS + 5;
    let mut draft = Draft::new();
    draft.declare_function(b"pick", &[TRUTH, TRUTH], TRUTH, 3)?;
    draft.add_rule(&[pick, X, TRUE], &[X])?;
    draft.add_rule(&[pick, TRUE, FALSE], &[FALSE])?;
    draft.add_rule(&[pick, FALSE, FALSE], &[TRUE])?;
    Ok(draft)
}

// either(true, A) = true; either(A, true) = true; either(false, false) = false
fn either() -> anyhow::Result<Draft>
    ensures { IfOk result (λ d. Named (codes "either") (seen d)) }
{
    let either = SYMBOLS + 5;
    let mut draft = Draft::new();
    draft.declare_function(b"either", &[TRUTH, TRUTH], TRUTH, 3)?;
    draft.add_rule(&[either, TRUE, X], &[TRUE])?;
    draft.add_rule(&[either, X, TRUE], &[TRUE])?;
    draft.add_rule(&[either, FALSE, FALSE], &[FALSE])?;
    Ok(draft)
}

// half(zero) = zero; half(up(up(A))) = up(half(A))
fn half() -> anyhow::Result<Draft>
    ensures { IfOk result (λ d. Named (codes "half") (seen d)) }
{
    let half = SYMBOLS + 7;
    let mut draft = Draft::new();
    draft.declare_sort(b"level")?;
    draft.declare_constructor(b"zero", &[], LEVEL)?;
    draft.declare_constructor(b"up", &[LEVEL], LEVEL)?;
    draft.declare_function(b"half", &[LEVEL], LEVEL, 2)?;
    draft.add_rule(&[half, ZERO], &[ZERO])?;
    draft.add_rule(&[half, UP, UP, X], &[UP, half, X])?;
    Ok(draft)
}

// A symbol of a book, to be printed by its name.
fn named(book: &Book, symbol: u8) -> Symbol<'_> {
    let signature = book.declared().signature;
    Symbol { signature, symbol }
}

// A rule by its number, with its sides.
fn show_rule(rt: &HostRuntime, book: &Book, rule: usize) -> io::Result<()> {
    let rules = &book.rules;
    let (Some(left), Some(right)) = (rules.left(rule), rules.right(rule)) else {
        return println!(rt; ": no rule");
    };
    let signature = book.declared().signature;
    let left = Letters::whole(signature, left);
    let right = Letters::whole(signature, right);
    println!(rt; ": rule {rule},{left} ={right}")
}

// The tree below a place: a rule, or a branch at a position with a line for each child.
#[cycle(show_children_show_tree)]
fn show_tree(rt: &HostRuntime, book: &Book, place: usize, indent: usize) -> io::Result<()> {
    let Some(node) = book.rules.node(place) else {
        return println!(rt; ": no node");
    };
    match node.kind {
        Kind::Rule(rule) => show_rule(rt, book, rule),
        Kind::Branch(path, _) => {
            println!(rt; ": at {}", Position(path.steps()))?;
            show_children(rt, book, place, indent)
        }
    }
}

#[cycle(show_children_show_tree)]
fn show_children(rt: &HostRuntime, book: &Book, place: usize, indent: usize) -> io::Result<()> {
    if indent >= DEEPEST {
        return println!(rt; "{} ..", Indent(indent));
    }
    let rules = &book.rules;
    // The cast loses nothing, here and in `show_book`: there are at most 96 symbols.
    let children = (0..MOST_SYMBOLS as u8).filter_map(|s| rules
        .child(place, s)
        .map(|child| (s, child)));
    for (symbol, child) in children {
        print!(rt; "{} {}", Indent(indent), named(book, symbol))?;
        show_tree(rt, book, child, indent + 1)?;
    }
    Ok(())
}

// Every function with its tree.
fn show_book(rt: &HostRuntime, book: &Book) -> io::Result<()> {
    let roots = (0..MOST_SYMBOLS as u8).filter_map(|s| book.rules.root(s).map(|root| (s, root)));
    for (symbol, root) in roots {
        print!(rt; "{} {}", Indent(1), named(book, symbol))?;
        show_tree(rt, book, root, 2)?;
    }
    Ok(())
}

// What Check says of a draft, under its name.
fn tell(rt: &HostRuntime, name: &str, draft: &Draft) -> io::Result<()>
    requires { Named name.now (seen draft.now) }
{
    let mut book = Book::empty();
    let verdict = book.check(draft);
    show_verdict(rt, name, draft, verdict, &book)
}

// Shows a verdict on a draft under its name; a book with its trees.
fn show_verdict(
    rt: &HostRuntime,
    name: &str,
    draft: &Draft,
    verdict: Result<(), CheckFault>,
    book: &Book,
) -> io::Result<()>
    requires draft { Named name.now (seen draft.now) }
    requires verdict { refusal verdict ≡ check_fault (seen draft.now) }
    requires book { held book.now ≡ after_check (check_fault (seen draft.now)) (seen draft.now) empty }
{
    match verdict {
        Ok(()) => {
            println!(rt; "  {name}: accepted")?;
            show_book(rt, book)
        }
        Err(fault) => {
            // With the name of the function; what the fault prints has its number.
            let (number, symbol) = fault.numbered();
            let function = Symbol {
                signature: draft.declared().signature,
                symbol,
            };
            println!(rt; "  {name}: refused {number}, names {function}")
        }
    }
}

// The draft of meet is made and shown; then it is told what Check says of it and of three more.
pub fn show_checks(rt: &HostRuntime) -> anyhow::Result<()> {
    let meet = show_draft(rt)?;
    println!(rt;
        "Drafts are checked; a book is shown with its trees, by position, constructor and rule."
    )?;
    tell(rt, "meet", &meet)?;
    tell(rt, "pick", &pick()?)?;
    tell(rt, "either", &either()?)?;
    tell(rt, "half", &half()?)?;
    Ok(())
}
