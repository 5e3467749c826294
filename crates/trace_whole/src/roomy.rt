// The pieces that print, in buffers that have room for all of it: nothing is cut.
ghost use Rattle.std.specs.Prelude.{◌≡◌, ℕ, ◌+◌, ◌^◌, ◌<◌, ◌≤◌, List, length, take};
ghost use Rattle.language.specs.Decode.{decode};
ghost use Rattle.language.specs.InputLines.{lines_of};
ghost use Rattle.language.specs.RecordBytes.{record_size};
ghost use Rattle.language.specs.Trace.{run_lines};
ghost use Rattle.trace_input.specs.Lines.{Held, held_room};
ghost use Rattle.trace_line.specs.Turns.{Ready, printed_room};
ghost use Rattle.trace_whole.specs.Begins.{image_room, refused_room};
ghost use Rattle.trace_whole.specs.Roomy.{Prints, Told};

use crate::begun::Begun;
use crate::input::State;
use crate::{begun, input};

// A text that is legal is opened; of any other the refusal is printed.
pub fn begin_run(
    text: &[u8],
    image: &mut [u8],
    store: &mut [u8],
    record: &mut [u8],
    out: &mut [u8],
) -> Result<Begun, usize>
    requires { (image_room ≤ length image.old) × (16384 ≤ length store.old) × (length «record».old ≡ record_size) × (refused_room ≤ length out.old) }
    ensures { Prints text.now (length store.old) result image.new store.new «record».new out.new }
{
    begun::begin_run(text, image, store, record, out)
}

// A byte of the input, while the run goes on.
pub fn byte(
    image: &[u8],
    store: &mut [u8],
    record: &mut [u8],
    line: &mut [u8],
    s: State,
    b: u8,
    out: &mut [u8],
) -> State
    requires { (Ready image.now store.old) × (s.held ≤ length line.old) × (held_room ≤ length line.old) × (printed_room ≤ length out.old) }
    ensures { (result.held ≤ length line.new) × ((l : List ℕ) → Held l line.old s.held → Told image.now l b s.done store.old «record».old result store.new «record».new line.new out.new) }
{
    let first = State { end: 0, ..s };
    input::byte(image, store, record, line, first, b, out)
}

// The end of the input.
pub fn finish(
    image: &[u8],
    store: &mut [u8],
    record: &mut [u8],
    line: &[u8],
    s: State,
    out: &mut [u8],
) -> usize
    requires { (Ready image.now store.old) × (s.held ≤ length line.now) × (held_room ≤ length line.now) × (printed_room ≤ length out.old) }
    ensures { (l : List ℕ) → Held l line.now s.held → s.done + length l < 2 ^ 64 → run_lines image.now (decode image.now) (lines_of l) s.done store.old «record».old ≡ take result out.new }
{
    let first = State { end: 0, ..s };
    input::finish(image, store, record, line, first, out)
}
