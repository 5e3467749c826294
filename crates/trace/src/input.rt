// Standard input byte by byte: what each prints, until the run or the input ends.
ghost use Rattle.std.specs.ControlFlow.{MatchControlFlow};
ghost use Rattle.std.specs.Prelude.{◌≡◌, ◌≤◌, length, IfOk, OnErr};
ghost use Rattle.trace_input.specs.Lines.{held_room};
ghost use Rattle.trace_line.specs.Turns.{Ready, printed_room};

use image_records::bytes;
use std::io;
use std::io::{ErrorKind, Read};
use std::ops::ControlFlow;
use trace_input::lines;
use trace_line::told;
use trace_whole::input::State;
use trace_whole::roomy;

// The first bytes of a buffer go to standard output.
fn write(rt: &impl Print, out: &[u8], n: usize) -> io::Result<()> {
    if 0 < n {
        rt.write_all(bytes::part(out, 0, n))?;
    }
    Ok(())
}

// A part of the input.
fn feed(
    rt: &impl Print,
    image: &[u8],
    store: &mut [u8],
    record: &mut [u8],
    line: &mut [u8],
    out: &mut [u8],
    start: State,
    chunk: &[u8],
) -> io::Result<State>
    requires { (Ready image.now store.old) × (start.held ≤ length line.old) × (held_room ≤ length line.old) × (printed_room ≤ length out.old) }
    ensures ok { IfOk result (λ s. s.held ≤ length line.new) }
    ensures err { OnErr result (length line.new ≡ length line.old) }
{
    let mut s = start;
    for b in chunk {
        if !s.on {
            break;
        }
        s = roomy::byte(image, store, record, line, s, *b, out);
        write(rt, out, s.end)?;
    }
    Ok(s)
}

// The end, where no stop or refusal was the last line.
fn finish(
    rt: &impl Print,
    image: &[u8],
    store: &mut [u8],
    record: &mut [u8],
    line: &[u8],
    out: &mut [u8],
    s: State,
) -> io::Result<()>
    requires { (Ready image.now store.old) × (s.held ≤ length line.now) × (held_room ≤ length line.now) × (printed_room ≤ length out.old) }
{
    if s.on {
        let n = roomy::finish(image, store, record, line, s, out);
        write(rt, out, n)?;
    }
    Ok(())
}

// The next part of the input: a break at its end, or where the run has ended.
fn next(
    rt: &impl Print,
    input: &mut impl Read,
    image: &[u8],
    store: &mut [u8],
    record: &mut [u8],
    line: &mut [u8],
    out: &mut [u8],
    s: State,
) -> io::Result<ControlFlow<State, State>>
    requires { (Ready image.now store.old) × (s.held ≤ length line.old) × (held_room ≤ length line.old) × (printed_room ≤ length out.old) }
    ensures ok { IfOk result (λ p. MatchControlFlow p (λ s. s.held ≤ length line.new) (λ s. s.held ≤ length line.new)) }
    ensures err { OnErr result (length line.new ≡ length line.old) }
{
    let mut chunk = [0u8; 65536];
    let n = match input.read(&mut chunk) {
        Ok(n) => n,
        Err(e) if e.kind() == ErrorKind::Interrupted => {
            return Ok(ControlFlow::Continue(s));
        }
        Err(e) => return Err(e),
    };
    if n == 0 {
        return Ok(ControlFlow::Break(s));
    }
    let after = feed(rt, image, store, record, line, out, s, &chunk[..n])?;
    Ok(if after.on {
        ControlFlow::Continue(after)
    } else {
        ControlFlow::Break(after)
    })
}

// All of the input.
fn all(
    rt: &(impl Input + Print),
    image: &[u8],
    store: &mut [u8],
    record: &mut [u8],
    line: &mut [u8],
    out: &mut [u8],
) -> io::Result<()>
    requires { (Ready image.now store.old) × (held_room ≤ length line.old) × (printed_room ≤ length out.old) }
{
    let mut input = rt.reader();
    let mut s = State {
        held: 0,
        done: 0,
        on: true,
        end: 0,
    };
    for _ in 0..u64::MAX {
        match next(rt, &mut input, image, store, record, line, out, s)? {
            ControlFlow::Continue(after) => s = after,
            ControlFlow::Break(last) => {
                return finish(rt, image, store, record, line, out, last);
            }
        }
    }
    Ok(())
}

// In a line's buffer, and one for what is printed, that are large enough for any image that passes.
pub fn cycles(
    rt: &(impl Input + Print),
    image: &[u8],
    store: &mut [u8],
    record: &mut [u8],
) -> io::Result<()>
    requires { Ready image.now store.old }
{
    let mut line = [0u8; lines::LINE];
    let mut out = [0u8; told::PRINTED];
    all(rt, image, store, record, &mut line, &mut out)
}
