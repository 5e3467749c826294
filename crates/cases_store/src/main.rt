// Runs the commands of standard input, as tests/store/cases.py writes them, on a store, pending bytes and a mask.
// Each prints what was loaded, or all bytes of the slice that it wrote as one number: the script works out the same lines.
#![tactic(auto)]

mod columns;
mod shown;

use columns::Command;
use std::io;
use std::io::{ErrorKind, Read};
use store_words::{delayed, parts, slices, spare};

// On the store and the pending bytes.
fn on_store(
    rt: &impl Print,
    letter: u8,
    c: Command,
    store: &mut [u8],
    pending: &mut [u8],
) -> io::Result<()> {
    match letter {
        b'l' => shown::value(rt, parts::load(store, c.at, c.length, c.from, c.count)),
        b's' => {
            parts::save(store, c.at, c.length, c.from, c.count, c.value);
            shown::slice(rt, store)
        }
        b'p' => {
            parts::save(pending, c.at, c.length, c.from, c.count, c.value);
            shown::slice(rt, pending)
        }
        b'c' => {
            slices::copy(pending, store);
            shown::slice(rt, pending)
        }
        b'n' => shown::holds(rt, spare::no_spare_bits(store, c.at, c.count, c.length)),
        _ => Ok(()),
    }
}

// On the mask, and landing.
fn on_mask(
    rt: &impl Print,
    letter: u8,
    c: Command,
    store: &mut [u8],
    pending: &[u8],
    mask: &mut [u8],
) -> io::Result<()> {
    match letter {
        b'm' => {
            delayed::mark(mask, c.at, c.length, c.from, c.count);
            shown::slice(rt, mask)
        }
        b'q' => shown::holds(rt, delayed::marked(mask, c.at, c.length, c.from, c.count)),
        b'z' => {
            slices::zero(mask);
            shown::slice(rt, mask)
        }
        b'd' => {
            delayed::land(store, pending, mask);
            shown::slice(rt, store)
        }
        _ => Ok(()),
    }
}

// Runs the next line; whether there was one.
fn next(
    rt: &impl Print,
    input: &mut impl Read,
    store: &mut [u8],
    pending: &mut [u8],
    mask: &mut [u8],
) -> io::Result<bool> {
    let mut line = [0u8; 95];
    match input.read_exact(&mut line) {
        Ok(()) => {}
        Err(e) if e.kind() == ErrorKind::UnexpectedEof => return Ok(false),
        Err(e) => return Err(e),
    }
    let c = columns::asked(&line);
    on_store(rt, line[0], c, store, pending)?;
    on_mask(rt, line[0], c, store, pending, mask)?;
    Ok(true)
}

// Runs every line.
fn run(
    rt: &(impl Input + Print),
    store: &mut [u8],
    pending: &mut [u8],
    mask: &mut [u8],
) -> io::Result<()> {
    let mut input = rt.reader();
    for _ in 0..1000000 {
        if !next(rt, &mut input, store, pending, mask)? {
            break;
        }
    }
    Ok(())
}

fn main(rt: HostRuntime) -> io::Result<()> {
    let mut store = [0u8; 8320];
    let mut pending = [0u8; 8320];
    let mut mask = [0u8; 8320];
    run(&rt, &mut store, &mut pending, &mut mask)
}
