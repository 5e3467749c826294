// Reading, opening, a cycle and many of them.
ghost use Rattle.std.specs.Prelude.{◌≡◌, length};
ghost use Rattle.language.specs.Calls as L;
ghost use Rattle.language.specs.Reading as R;
ghost use Rattle.call_answers.specs.Numbers.{cycle_numbers, open_number, read_numbers, run_numbers};

use call_answers::exported::{CycleAnswer, ReadAnswer, RunAnswer};
use call_answers::numbers;

// The image of a text, or zero and the refusal with its place.
#[unsafe(no_mangle)]
pub extern "C" fn ddlp_read(text: &[u8], image: &mut [u8]) -> ReadAnswer
    ensures value { result ≡ read_numbers (R.read text.now (length image.old)).answer }
    ensures image_after { image.new ≡ (R.read text.now (length image.old)).image }
{
    let answer = call_read::read(text, image);
    numbers::read_numbers(answer)
}

// A store and a record at the first state, or zero and the number of the refusal.
#[unsafe(no_mangle)]
pub extern "C" fn ddlp_open(image: &[u8], store: &mut [u8], record: &mut [u8]) -> u32
    ensures value { result ≡ open_number (L.open' image.now (length store.old) (length «record».old)).answer }
    ensures store_after { store.new ≡ (L.open' image.now (length store.old) (length «record».old)).store }
    ensures record_after { «record».new ≡ (L.open' image.now (length store.old) (length «record».old)).record' }
{
    let answer = call_open::open::open(image, call_check::passes(image), store, record);
    numbers::open_number(answer)
}

// Store and record a cycle further, or as they were; scratch zero.
#[unsafe(no_mangle)]
pub extern "C" fn ddlp_cycle(
    image: &[u8],
    store: &mut [u8],
    record: &mut [u8],
    stimulus: &[u8],
    scratch: &mut [u8],
) -> CycleAnswer
    ensures value { result ≡ cycle_numbers (L.cycle image.now store.old «record».old stimulus.now (length scratch.old)).answer }
    ensures store_after { store.new ≡ (L.cycle image.now store.old «record».old stimulus.now (length scratch.old)).store }
    ensures record_after { «record».new ≡ (L.cycle image.now store.old «record».old stimulus.now (length scratch.old)).record' }
    ensures scratch_after { scratch.new ≡ (L.cycle image.now store.old «record».old stimulus.now (length scratch.old)).scratch }
{
    let answer = call_run::cycle::cycle(
        image,
        call_check::passes(image),
        store,
        record,
        stimulus,
        scratch,
    );
    numbers::cycle_numbers(answer)
}

// Store and record many cycles further, with the stores after them in the trace; scratch zero. No run has more cycles than cycle numbers have values.
#[unsafe(no_mangle)]
pub extern "C" fn ddlp_run(
    image: &[u8],
    store: &mut [u8],
    record: &mut [u8],
    stimuli: &[u8],
    cycles: u32,
    scratch: &mut [u8],
    trace: &mut [u8],
) -> RunAnswer
    ensures value { result ≡ run_numbers (L.run image.now store.old «record».old stimuli.now cycles (length scratch.old) (length trace.old)).answer }
    ensures store_after { store.new ≡ (L.run image.now store.old «record».old stimuli.now cycles (length scratch.old) (length trace.old)).store }
    ensures record_after { «record».new ≡ (L.run image.now store.old «record».old stimuli.now cycles (length scratch.old) (length trace.old)).record' }
    ensures scratch_after { scratch.new ≡ (L.run image.now store.old «record».old stimuli.now cycles (length scratch.old) (length trace.old)).scratch }
    ensures trace_after { trace.new ≡ (L.run image.now store.old «record».old stimuli.now cycles (length scratch.old) (length trace.old)).trace }
{
    let answer = call_run::run::run(
        image,
        call_check::passes(image),
        store,
        record,
        stimuli,
        cycles,
        scratch,
        trace,
    );
    numbers::run_numbers(answer)
}
