// Runs the cases of standard input, lines of fixed columns as tests/value/cases.py writes them, and prints each that comes out otherwise.
#![tactic(auto)]

mod columns;
mod constant;
mod operators;

use std::io;
use std::io::{ErrorKind, Read};
use value_operators::{Value, numbers};

// What came of one line.
#[derive(Clone, Copy)]
enum Outcome {
    Right,
    Wrong,
    End,
}

// Whether an answer is the expected one: where none is expected, its length and number are 0.
fn same(given: Option<Value>, expected: Value) -> bool {
    match given {
        Some(x) => {
            expected.length > 0 && x.length == expected.length && numbers::same(x, expected)
        }
        None => expected.length == 0 && expected.limbs == [0; 4],
    }
}

// What the line's operator gives.
fn given(line: &[u8; 213]) -> Option<Value> {
    let x = columns::left(line);
    let c = columns::count(line);
    if line[0] == b'k' {
        return constant::made(&line[6..139], c, x.length);
    }
    operators::applied(line[0], x, columns::right(line), c)
}

// Runs the next line.
fn next(rt: &impl Print, input: &mut impl Read) -> io::Result<Outcome> {
    let mut line = [0u8; 213];
    match input.read_exact(&mut line) {
        Ok(()) => {}
        Err(e) if e.kind() == ErrorKind::UnexpectedEof => return Ok(Outcome::End),
        Err(e) => return Err(e),
    }
    if same(given(&line), columns::expected(&line)) {
        return Ok(Outcome::Right);
    }
    rt.write_all(&line)?;
    Ok(Outcome::Wrong)
}

// Counts the cases, and those that are wrong.
fn main(rt: HostRuntime) -> io::Result<()> {
    let mut input = rt.reader();
    let mut cases: u64 = 0;
    let mut wrong: u64 = 0;
    while cases < u64::MAX {
        match next(&rt, &mut input)? {
            Outcome::Right => {}
            Outcome::Wrong => wrong += 1,
            Outcome::End => break,
        }
        cases += 1;
    }
    println!(rt; "{cases} cases, {wrong} wrong")
}
