// One line of input bits: a cycle and its line of output, or the stop or the refusal that ends the run.
ghost use Rattle.std.specs.Prelude.{◌≡◌, ◌*◌, ◌≤◌, true, length};
ghost use Rattle.language.specs.Calls as L;
ghost use Rattle.language.specs.Calls.{stimulus_size};
ghost use Rattle.language.specs.Decode.{decode};
ghost use Rattle.language.specs.Image.{passes};
ghost use Rattle.language.specs.Layout.{store_size};
ghost use Rattle.trace_line.specs.Turns.{Carried, Ready, Turned};

use image_records::{bytes, numbers};
use image_sections::sections;
use language::ceilings;
use trace_input::stimulus;
use trace_line::told;
use trace_line::told::Turn;

// A cycle with a stimulus.
fn carried(
    image: &[u8],
    store: &mut [u8],
    record: &mut [u8],
    scratch: &mut [u8],
    stimulus: &[u8],
    number: u64,
    out: &mut [u8],
    at: usize,
) -> Turn
    requires { (passes image.now ≡ true) × (store_size (decode image.now) ≤ length store.old) }
    ensures { Carried image.now number «record».old (L.cycle image.now store.old «record».old stimulus.now (length scratch.old)) result.on store.new «record».new out.old at out.new result.end }
{
    let state = numbers::four(record, 4);
    let answer = call_run::cycle::cycle(image, true, store, record, stimulus, scratch);
    told::told(image, answer, state, number, store, out, at)
}

// The cycle of this number, by a line of input.
pub fn line_done(
    image: &[u8],
    store: &mut [u8],
    record: &mut [u8],
    scratch: &mut [u8],
    stimulus: &mut [u8],
    line: &[u8],
    number: u64,
    out: &mut [u8],
    at: usize,
) -> Turn
    requires { (passes image.now ≡ true) × (store_size (decode image.now) ≤ length store.old) × (length scratch.old ≡ 4 * store_size (decode image.now)) × (stimulus_size (decode image.now) ≤ length stimulus.old) }
    ensures { Turned image.now line.now number store.old «record».old result.on store.new «record».new out.old at out.new result.end }
{
    let facilities = sections::section(image, sections::FACILITIES);
    match stimulus::stimulus_of(facilities, line, stimulus) {
        None => told::not_taken(out, at),
        Some(n) => {
            let taken = bytes::part(stimulus, 0, n);
            carried(image, store, record, scratch, taken, number, out, at)
        }
    }
}

// The same in buffers of its own, large enough for any image that passes.
pub fn turned(
    image: &[u8],
    store: &mut [u8],
    record: &mut [u8],
    line: &[u8],
    number: u64,
    out: &mut [u8],
    at: usize,
) -> Turn
    requires { Ready image.now store.old }
    ensures { Turned image.now line.now number store.old «record».old result.on store.new «record».new out.old at out.new result.end }
{
    let mut scratch = [0u8; 4 * ceilings::STORE];
    let mut stimulus = [0u8; ceilings::STORE];
    let size = 4 * store.len();
    line_done(
        image,
        store,
        record,
        &mut scratch[0..size],
        &mut stimulus,
        line,
        number,
        out,
        at,
    )
}
