// Three words taken apart, and three with a fault.
use crate::letters::{MEET, UP, X, ZERO};
use crate::spelling::{Letters, Position};
use anyhow::Context;
use std::io;
use terms::letter::{ATMOST, MINUS, PLUS, TRUE};
use terms::name::Name;
use terms::signature::Signature;
use words::checks::word_fault;
use words::parts::part;

// No word of the tour may be longer.
const MOST: usize = 64;

// The sort level, its constructors zero and up, and the function meet of two levels.
// Tests have such a signature too: each makes its own, by the calls that it shows.
fn levels() -> Option<Signature> {
    let mut signature = Signature::built_in();
    let level = signature.add_sort(Name::new(b"level")?)?;
    signature.add_constructor(Name::new(b"zero")?, &[], level)?;
    signature.add_constructor(Name::new(b"up")?, &[level], level)?;
    signature.add_function(Name::new(b"meet")?, &[level, level], level)?;
    Some(signature)
}

// The part at a position, with its place and length.
// Signature and word, as in `take_apart` and `show_fault`: each is called with a word written out, which a struct would only wrap.
fn show_part(rt: &HostRuntime, signature: &Signature, word: &[u64], path: &[u8]) -> io::Result<()> {
    let position = Position(path);
    let Some(part) = part(signature, word, path) else {
        return println!(rt; "    -       -  {position} is no position of it");
    };
    let letters = Letters {
        signature,
        word,
        part,
    };
    println!(rt; "{:>5}  {:>6} {letters} ({position})", part.start, part.len)
}

// The parts of a word at some positions.
fn take_apart(
    rt: &HostRuntime,
    signature: &Signature,
    word: &[u64],
    paths: &[&[u8]],
) -> io::Result<()> {
    println!(rt; "place  length  part")?;
    for path in paths {
        show_part(rt, signature, word, path)?;
    }
    Ok(())
}

// Why a word is no closed, sort-correct term.
fn show_fault(rt: &HostRuntime, signature: &Signature, word: &[u64]) -> io::Result<()> {
    let letters = Letters::whole(signature, word);
    let Some(fault) = word_fault(signature, MOST, word) else {
        return println!(rt; "no fault:{letters}");
    };
    // By its number, which this program tells; the fault prints itself in words.
    let (number, at) = fault.numbered();
    println!(rt; "fault {number} at letter {at}:{letters}")
}

// Three words with their parts, then three with a fault.
pub fn show_words(rt: &HostRuntime) -> anyhow::Result<()> {
    let signature = levels().context("no room for the signature")?;
    println!(rt; "Words are taken apart, each part with its place and length.")?;
    take_apart(
        rt,
        &signature,
        &[MEET, UP, ZERO, UP, UP, ZERO],
        &[&[], &[1], &[1, 1], &[2], &[2, 1], &[2, 1, 1]],
    )?;
    take_apart(
        rt,
        &signature,
        &[PLUS, 2, MINUS, 5, 3],
        &[&[], &[1], &[2], &[2, 1], &[2, 2], &[3]],
    )?;
    take_apart(
        rt,
        &signature,
        &[ATMOST, PLUS, 1, 2, 4],
        &[&[], &[1], &[1, 2], &[2]],
    )?;
    println!(rt;
        "Words that are no closed, sort-correct terms have a fault, at a letter or at their end."
    )?;
    show_fault(rt, &signature, &[UP, X])?;
    show_fault(rt, &signature, &[MEET, ZERO])?;
    show_fault(rt, &signature, &[PLUS, TRUE, 1])?;
    Ok(())
}
