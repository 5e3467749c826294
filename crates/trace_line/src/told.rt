// What is printed of a line of input: the line of its cycle, or the stop or the refusal that ends the run.
ghost use Rattle.std.specs.Prelude.{false, true, List, ◌≡◌, ℕ, ◌≤◌, length};
ghost use Rattle.language.specs.Calls.{CycleCall};
ghost use Rattle.language.specs.Decode.{decode, number_at};
ghost use Rattle.language.specs.Image.{passes};
ghost use Rattle.language.specs.Layout.{store_size};
ghost use Rattle.language.specs.Trace.{cycle_line, refused_line};
ghost use Rattle.language.specs.declared.refusals.Refusal.TheVariants.{BadStimulus};
ghost use Rattle.call_answers.specs.Cycle.{call};
ghost use Rattle.trace_output.specs.Adds.{Adds};
ghost use Rattle.trace_line.specs.Turns.{Carried};

use call_answers::cycled::Halt;
use image_lookups::named;
use image_sections::sections;
use language::refusals::Refusal;
use trace_output::line;

// Room for all that is printed of a line of input, and for the line that ends a run after it, whatever image passes.
pub const PRINTED: usize = 200000;

// Whether the run goes on, and where the output ends, which it does either way: so the flag stands beside it.
#[derive(Clone, Copy)]
pub struct Turn {
    pub on: bool,
    pub end: usize,
}

// The line of a cycle that was carried out in a state.
fn shown(image: &[u8], state: u32, number: u64, store: &[u8], out: &mut [u8], at: usize) -> usize
    requires { (passes image.now ≡ true) × (store_size (decode image.now) ≤ length store.now) }
    ensures { Adds (cycle_line (decode image.now) number state store.now) out.old at out.new result }
{
    let name = named::state_name(image, true, state);
    let facilities = sections::section(image, sections::FACILITIES);
    let names = sections::section(image, sections::NAMES);
    line::cycle_line(out, at, number, name, facilities, names, store)
}

// A cycle from a record R in this state, which came to this answer and left this store.
pub fn told(
    image: &[u8],
    answer: Result<u32, Halt>,
    state: u32,
    number: u64,
    store: &[u8],
    out: &mut [u8],
    at: usize,
) -> Turn
    requires { (passes image.now ≡ true) × (store_size (decode image.now) ≤ length store.now) }
    ensures { (R R' scratch : List ℕ) (c : CycleCall) → state ≡ number_at 4 4 R → call answer store.now R' scratch ≡ c → Carried image.now number R c result.on store.now R' out.old at out.new result.end }
{
    match answer {
        Ok(_) => Turn {
            on: true,
            end: shown(image, state, number, store, out, at),
        },
        Err(Halt::Stopped(n)) => Turn {
            on: false,
            end: line::numbered(out, at, b"stop ", u8::from(n) as u64),
        },
        Err(Halt::Refused(n)) => Turn {
            on: false,
            end: line::numbered(out, at, b"refused ", u8::from(n) as u64),
        },
    }
}

// A line that is no stimulus is refused as 15.
pub fn not_taken(out: &mut [u8], at: usize) -> Turn
    ensures { (result.on ≡ false) × Adds (refused_line BadStimulus) out.old at out.new result.end }
{
    Turn {
        on: false,
        end: line::numbered(out, at, b"refused ", u8::from(Refusal::BadStimulus) as u64),
    }
}
