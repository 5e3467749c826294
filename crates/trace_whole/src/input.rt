// Standard input byte by byte: a cycle for each line, until the run or the input ends.
ghost use Rattle.std.specs.Prelude.{◌≡◌, ℕ, ◌+◌, ◌%◌, ◌^◌, ◌≤◌, List, length};
ghost use Rattle.trace_input.specs.Lines.{Held, held_room};
ghost use Rattle.trace_line.specs.Turns.{Ready, Turned};
ghost use Rattle.trace_whole.specs.Fed.{Ended, Fed};

use crate::line;
use trace_input::lines;
use trace_output::line as printing;

// The bytes held of the line so far, the cycles before it, whether the run goes on, and where the output ends, as of a turn.
#[derive(Clone, Copy)]
pub struct State {
    pub held: usize,
    pub done: u64,
    pub on: bool,
    pub end: usize,
}

// The cycle of a whole line.
fn cycle(
    image: &[u8],
    store: &mut [u8],
    record: &mut [u8],
    line: &[u8],
    s: State,
    out: &mut [u8],
) -> State
    requires { Ready image.now store.old }
    ensures { (result.held ≡ 0) × (result.done ≡ (s.done + 1) % 2 ^ 64) × Turned image.now line.now result.done store.old «record».old result.on store.new «record».new out.old s.end out.new result.end }
{
    let number = s.done.wrapping_add(1);
    let t = line::turned(image, store, record, line, number, out, s.end);
    State {
        held: 0,
        done: number,
        on: t.on,
        end: t.end,
    }
}

// A byte of the input, while the run goes on.
pub fn byte(
    image: &[u8],
    store: &mut [u8],
    record: &mut [u8],
    line: &mut [u8],
    s: State,
    b: u8,
    out: &mut [u8],
) -> State
    requires { (Ready image.now store.old) × (s.held ≤ length line.old) × (held_room ≤ length line.old) }
    ensures { (result.held ≤ length line.new) × ((l : List ℕ) → Held l line.old s.held → Fed image.now l b s store.old «record».old out.old result store.new «record».new line.new out.new) }
{
    if b == b'\n' {
        let whole = lines::without_return(&line[0..s.held]);
        return cycle(image, store, record, whole, s, out);
    }
    State {
        held: lines::put(line, s.held, b),
        on: true,
        ..s
    }
}

// The end of the input: a last line without LF counts.
pub fn finish(
    image: &[u8],
    store: &mut [u8],
    record: &mut [u8],
    line: &[u8],
    s: State,
    out: &mut [u8],
) -> usize
    requires { (Ready image.now store.old) × (s.held ≤ length line.now) × (held_room ≤ length line.now) }
    ensures { (l : List ℕ) → Held l line.now s.held → Ended image.now l s store.old «record».old out.old out.new result }
{
    if s.held == 0 {
        return printing::numbered(out, s.end, b"end ", s.done);
    }
    let last = cycle(image, store, record, &line[0..s.held], s, out);
    if last.on {
        return printing::numbered(out, last.end, b"end ", last.done);
    }
    last.end
}
