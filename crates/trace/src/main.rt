// The trace program (01, "Cases"): the text of run.ddl, a line of input bits for each cycle from standard input, and a line of output for each.
#![tactic(auto)]

mod input;

use image_records::bytes;
use language::ceilings;
use std::alloc::Global;
use std::io::Read;
use std::{fs, io};
use trace_whole::{begun, roomy};

// Runs the text or says why it is refused.
fn run(rt: &(impl Input + Print), text: &[u8]) -> io::Result<()> {
    let mut image = [0u8; begun::IMAGE];
    let mut store = [0u8; ceilings::STORE];
    let mut record = [0u8; ceilings::RECORD];
    let mut out = [0u8; begun::REFUSED];
    match roomy::begin_run(text, &mut image, &mut store, &mut record, &mut out) {
        Err(end) => rt.write_all(bytes::part(&out, 0, end)),
        Ok(begun) => input::cycles(
            rt,
            &image[0..begun.image],
            &mut store[0..begun.store],
            &mut record,
        ),
    }
}

// One byte more is read than a text may have: a longer one is refused whatever follows.
fn read_text(alloc: Global, file: impl Read + Drop) -> io::Result<Vec<u8>> {
    let mut text = Vec::new(alloc);
    file.take(ceilings::TEXT as u64 + 1).read_to_end(&mut text)?;
    Ok(text)
}

// Why a call failed, without the number that it has in the system.
fn reason(said: &str) -> &str {
    match said.rsplit_once(" (os error ") {
        Some((reason, _)) => reason,
        None => said,
    }
}

// A line on standard error: the file, and why it does not open.
fn fail(rt: &(impl Eprint + AllocGlobal), path: &str, error: io::Error) -> io::Result<()> {
    let said = format!(in rt.alloc(); "{error}")?;
    eprintln!(rt; "{path}: {}", reason(&said))
}

fn main(rt: HostRuntime) -> io::Result<()> {
    let path = "run.ddl";
    match fs::open(&rt, path) {
        Ok(file) => run(&rt, &read_text(rt.alloc(), file)?),
        Err(e) => fail(&rt, path, e),
    }
}
