// All that is printed for a text and an input in memory.
ghost use Rattle.std.specs.Prelude.{◌≤◌, length};
ghost use Rattle.language.specs.Decode.{decode};
ghost use Rattle.language.specs.InputLines.{lines_of};
ghost use Rattle.language.specs.Trace as T;
ghost use Rattle.trace_input.specs.Lines.{held_room};
ghost use Rattle.trace_line.specs.Turns.{Ready};
ghost use Rattle.trace_output.specs.Adds.{Adds};

use crate::input::State;
use crate::{begun, input};
use language::ceilings;
use trace_input::lines;

// All lines of an input.
fn cycles(
    image: &[u8],
    store: &mut [u8],
    record: &mut [u8],
    line: &mut [u8],
    input: &[u8],
    out: &mut [u8],
) -> usize
    requires { (Ready image.now store.old) × (held_room ≤ length line.old) }
    ensures { Adds (T.run_lines image.now (decode image.now) (lines_of input.now) 0 store.old «record».old) out.old 0 out.new result }
{
    let mut s = State {
        held: 0,
        done: 0,
        on: true,
        end: 0,
    };
    for b in input {
        s = input::byte(image, store, record, line, s, *b, out);
        if !s.on {
            return s.end;
        }
    }
    input::finish(image, store, record, line, s, out)
}

// The text is read and opened, and all lines of the input are carried out, or the text is refused.
pub fn printed(text: &[u8], input: &[u8], out: &mut [u8]) -> usize
    ensures { Adds (T.printed text.now input.now) out.old 0 out.new result }
{
    let mut image = [0u8; begun::IMAGE];
    let mut store = [0u8; ceilings::STORE];
    let mut record = [0u8; ceilings::RECORD];
    let mut line = [0u8; lines::LINE];
    match begun::begin_run(text, &mut image, &mut store, &mut record, out) {
        Err(end) => end,
        Ok(begun) => cycles(
            &image[0..begun.image],
            &mut store[0..begun.store],
            &mut record,
            &mut line,
            input,
            out,
        ),
    }
}
