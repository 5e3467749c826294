// Scans each text of data/ that a line of standard input names, and prints its words, or its refusal with the place.
#![tactic(auto)]

mod shown;

ghost use Rattle.std.specs.Prelude.{◌≤◌, length};

use std::alloc::Global;
use std::io::Read;
use std::rt::Files;
use std::{fs, io, str};

// Of the list, and of each text, no more bytes are read.
const MOST: u64 = 65536;

// Where the line that starts at a place ends.
fn line_end(list: &[u8], at: usize) -> usize
    requires { at ≤ length list.now }
    ensures { (at ≤ result) × (result ≤ length list.now) }
{
    match list[at..].iter().position(|b| *b == b'\n') {
        Some(n) => at + n,
        None => list.len(),
    }
}

// What a reader has, up to so many bytes.
fn read(alloc: Global, from: impl Read + Drop) -> io::Result<Vec<u8>> {
    let mut bytes = Vec::new(alloc);
    from.take(MOST).read_to_end(&mut bytes)?;
    Ok(bytes)
}

// The file of this name, where there is one that can be read.
fn open<R: Files>(rt: &R, name: &[u8]) -> Option<R::File> {
    let name = str::from_utf8(name).ok()?;
    fs::open(rt, name).ok()
}

// Scans the text of one file.
fn run(rt: &(impl Files + Print + AllocGlobal), name: &[u8]) -> io::Result<()> {
    rt.write_all(b"== ")?;
    rt.write_all(name)?;
    rt.write_all(b"\n")?;
    match open(rt, name) {
        Some(file) => shown::text(rt, &read(rt.alloc(), file)?),
        None => println!(rt; "missing"),
    }
}

// Scans the texts of all files of the list.
fn run_all(rt: &(impl Files + Print + AllocGlobal), list: &[u8]) -> io::Result<()> {
    let mut at = 0;
    while at < list.len() {
        let end = line_end(list, at);
        run(rt, &list[at..end])?;
        if end < list.len() {
            at = end + 1;
        } else {
            break;
        }
    }
    Ok(())
}

fn main(rt: HostRuntime) -> io::Result<()> {
    run_all(&rt, &read(rt.alloc(), rt.reader())?)
}
