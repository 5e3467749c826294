// Why a run is refused, and a cycle, which is a run of one stimulus: an image that does not pass, too little room, store or record not sound, a stimulus of another form.
ghost use Rattle.std.specs.Prelude.{◌≡◌, ◌≤◌};
ghost use Rattle.language.specs.Calls as L;
ghost use Rattle.language.specs.Calls.{run_refusal, trace_roomy};
ghost use Rattle.language.specs.Description.{Description};
ghost use Rattle.language.specs.Image.{passes};
ghost use Rattle.language.specs.Layout.{store_size};
ghost use Rattle.call_run.specs.Refusals.{refusal_seen};

use image_sections::sections;
use language::ceilings;
use language::refusals::Refusal;
use run_begin::formed;
use run_soundness::{sizes, soundness};

// Whether the buffers lent are long enough for a store of this size.
fn roomy(size: usize, store: usize, record: usize, scratch: usize) -> bool
    ensures { (d : Description) → size ≡ store_size d → result ≡ L.roomy d store «record» scratch }
{
    size <= store && ceilings::RECORD <= record && size <= scratch / 4
}

// Whether the trace takes a store of this size after each cycle, or is empty.
fn trace_roomy(size: usize, cycles: u32, trace: usize) -> bool
    requires { size ≤ 16384 }
    ensures { (d : Description) → size ≡ store_size d → result ≡ trace_roomy d cycles trace }
{
    trace == 0 || cycles as usize * size <= trace
}

// The first refusal, if there is one: 13, 12, 14, 15 in this order. Whether the image passes is known; `scratch` and `trace` are the lengths of those buffers.
pub fn run_refusal(
    image: &[u8],
    passed: bool,
    store: &[u8],
    record: &[u8],
    stimuli: &[u8],
    cycles: u32,
    scratch: usize,
    trace: usize,
) -> Result<(), Refusal>
    requires { passed ≡ passes image.now }
    ensures { refusal_seen result ≡ run_refusal image.now store.now «record».now stimuli.now cycles scratch trace }
{
    if !passed {
        return Err(Refusal::ImageFails);
    }
    let facilities = sections::section(image, sections::FACILITIES);
    let expressions = sections::section(image, sections::EXPRESSIONS);
    let states = sections::section(image, sections::STATES);
    let size = sizes::store_size(facilities);
    if !roomy(size, store.len(), record.len(), scratch) || !trace_roomy(size, cycles, trace) {
        return Err(Refusal::BufferTooShort);
    }
    if !soundness::sound(facilities, expressions, states, store, record) {
        return Err(Refusal::Unsound);
    }
    if !formed::all_well_formed(facilities, stimuli, cycles) {
        return Err(Refusal::BadStimulus);
    }
    Ok(())
}
