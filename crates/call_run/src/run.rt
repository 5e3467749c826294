// Many cycles: all that a caller is owed, on every input, where it is known whether the image passes.
ghost use Rattle.std.specs.Prelude.{◌≡◌, length};
ghost use Rattle.language.specs.Calls as L;
ghost use Rattle.language.specs.Image.{passes};
ghost use Rattle.call_answers.specs.Run.{call};

use crate::refusal;
use call_answers::ran::Tally;
use call_stimuli::carry;
use language::refusals::Refusal;
use store_words::slices;

// Refused or carried out. The trace is zero beyond the stores of completed cycles, and scratch is zero.
pub fn run(
    image: &[u8],
    passed: bool,
    store: &mut [u8],
    record: &mut [u8],
    stimuli: &[u8],
    cycles: u32,
    scratch: &mut [u8],
    trace: &mut [u8],
) -> Result<Tally, Refusal>
    requires { passed ≡ passes image.now }
    ensures { call result store.new «record».new scratch.new trace.new ≡ L.run image.now store.old «record».old stimuli.now cycles (length scratch.old) (length trace.old) }
{
    slices::zero(trace);
    match refusal::run_refusal(
        image,
        passed,
        store,
        record,
        stimuli,
        cycles,
        scratch.len(),
        trace.len(),
    ) {
        Ok(()) => Ok(carry::carry_out(image, store, record, stimuli, cycles, scratch, trace)),
        Err(refusal) => {
            slices::zero(scratch);
            Err(refusal)
        }
    }
}
