// One cycle: a run of one stimulus without a trace.
ghost use Rattle.std.specs.Prelude.{◌≡◌, length};
ghost use Rattle.language.specs.Calls as L;
ghost use Rattle.language.specs.Image.{passes};
ghost use Rattle.about_bytes.specs.OneCycle.{Counted, told};
ghost use Rattle.call_answers.specs.Cycle as Cycle;
ghost use Rattle.call_answers.specs.Run as Run;

use crate::run;
use call_answers::cycled::Halt;
use call_answers::ran::Tally;
use language::refusals::Refusal;

// The only cycle of a run of at most one: its conflicts, or why it was not completed.
fn single(a: Result<Tally, Refusal>) -> Result<u32, Halt>
    requires { Counted (Run.answered a) }
    ensures { Cycle.answered result ≡ told (Run.answered a) }
{
    let tally = a?;
    match tally.stop {
        None => Ok(tally.conflicts as u32),
        Some(stop) => Err(Halt::Stopped(stop)),
    }
}

// Refused or carried out. Scratch is zero afterwards.
pub fn cycle(
    image: &[u8],
    passed: bool,
    store: &mut [u8],
    record: &mut [u8],
    stimulus: &[u8],
    scratch: &mut [u8],
) -> Result<u32, Halt>
    requires { passed ≡ passes image.now }
    ensures { Cycle.call result store.new «record».new scratch.new ≡ L.cycle image.now store.old «record».old stimulus.now (length scratch.old) }
{
    single(run::run(image, passed, store, record, stimulus, 1, scratch, &mut []))
}
