// What came of a text, printed.
use std::io;
use text_characters::{letters, parts};
use text_words::{Fault, Word, WordKind, next, places, stage};
use value_operators::Value;

// A refusal: its number and its place.
fn refused(rt: &impl Print, f: Fault) -> io::Result<()> {
    let n = u8::from(f.refusal);
    let place = places::place(f.at);
    println!(rt; "refused {n} {place}")
}

// The letters of a name, in capitals.
fn capitals(rt: &impl Print, name: &[u8]) -> io::Result<()> {
    for b in name {
        rt.write_all(&[letters::fold(*b)])?;
    }
    Ok(())
}

// A constant: its length, its limbs, the highest first, and whether it is bare.
fn constant(rt: &impl Print, v: Value, bare: bool) -> io::Result<()> {
    let l = v.limbs;
    print!(rt; "{}:{},{},{},{}", v.length, l[3], l[2], l[1], l[0])?;
    if bare {
        print!(rt; " bare")?;
    }
    Ok(())
}

// A word: its place, its size, and what it is.
fn word(rt: &impl Print, text: &[u8], w: Word) -> io::Result<()> {
    let place = places::place(w.at);
    let size = w.size;
    print!(rt; "{place} {size}")?;
    match w.kind {
        WordKind::End => print!(rt; " end")?,
        WordKind::Name => {
            print!(rt; " name ")?;
            capitals(rt, parts::first(parts::rest(text, place), size))?;
        }
        WordKind::Constant => {
            print!(rt; " constant ")?;
            constant(rt, w.value, w.bare)?;
        }
        WordKind::Sign(k) => print!(rt; " sign {k}")?,
    }
    println!(rt; "")
}

// The words of a text.
fn all_words(rt: &impl Print, text: &[u8]) -> io::Result<()> {
    let mut at = 0;
    while at < text.len() {
        let w = next::next_word(text, at);
        if next::is_end(w.kind) {
            break;
        }
        word(rt, text, w)?;
        at = places::place(w.at) + w.size;
    }
    Ok(())
}

// The words of a text, or its refusal.
pub fn text(rt: &impl Print, s: &[u8]) -> io::Result<()> {
    match stage::first_fault(s) {
        Ok(()) => all_words(rt, s),
        Err(f) => refused(rt, f),
    }
}
