// Runs the cases that the second simulator packs, and prints for each kind how many agree, how many differ, and the first that does: the traces of data/corpus and the images of data/images.
#![tactic(auto)]

mod fetched;
mod files;
mod images;
mod tally;
mod traces;

use files::Kind;
use std::rt::Files;
use std::{fs, io};

// Why a call failed, without the number that it has in the system.
fn reason(said: &str) -> &str {
    match said.rsplit_once(" (os error ") {
        Some((reason, _)) => reason,
        None => said,
    }
}

// A line on standard error: the file, and why it does not open.
fn fail(rt: &(impl Eprint + AllocGlobal), path: &str, error: io::Error) -> io::Result<()> {
    let said = format!(in rt.alloc(); "{error}")?;
    eprintln!(rt; "{path}: {}", reason(&said))
}

// Tries every case of the file of this name.
fn each_of(
    rt: &(impl Files + Print + Eprint + AllocGlobal),
    path: &str,
    kind: Kind,
) -> io::Result<()> {
    match fs::open(rt, path) {
        Ok(mut file) => files::run(rt.alloc(), &mut file, kind)?.shown(rt),
        Err(e) => fail(rt, path, e),
    }
}

fn main(rt: HostRuntime) -> io::Result<()> {
    print!(rt; "traces: ")?;
    each_of(&rt, "corpus", Kind::Traces)?;
    print!(rt; "images: ")?;
    each_of(&rt, "images", Kind::Images)
}
