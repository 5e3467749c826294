// A cycle: the actions of its state, and what follows them.
ghost use Rattle.std.specs.Prelude.{◌≡◌, ◌/◌, ◌≤◌, length};
ghost use Rattle.language.specs.Calls.{stimulus_size};
ghost use Rattle.language.specs.Description.{Description};
ghost use Rattle.language.specs.Encode.{facility_size, operation_size, state_size};
ghost use Rattle.language.specs.Layout.{store_size_of};
ghost use Rattle.language.specs.Step as S;
ghost use Rattle.language.specs.Store.{from_bytes, inputs_of};
ghost use Rattle.run_actions.specs.Acts.{ActsIn};
ghost use Rattle.run_next.specs.Seen.{record_meant};
ghost use Rattle.run_end.specs.Register.{Enters};
ghost use Rattle.run_end.specs.Stepped.{Clear, counted, stepped};

use crate::acted;
use image_records::record_sizes;
use image_sections::sections::Sections;
use language::ceilings;
use language::stops::Stop;
use run_end::finish;
use run_end::outcome::Ended;
use run_next::record::Record;
use run_references::worth::{Halted, Stuck};

// The store is a working copy: where the cycle does not complete it is of no use.
pub fn step(
    image: &Sections,
    r: Record,
    stimulus: &[u8],
    store: &mut [u8],
    pending: &mut [u8],
    mask: &mut [u8],
) -> Ended
    requires { (length image.now.facilities.now / facility_size ≤ 65536) × (length image.now.states.now / state_size ≤ 65536) × (r.held ≤ 16) }
    ensures { (d : Description) → Enters d image.now.facilities.now image.now.expressions.now image.now.states.now → ActsIn d image.now → length d.operations ≡ length image.now.operations.now / operation_size → store_size_of d.facilities ≤ length store.old → stimulus_size d ≤ length stimulus.now → Clear store.old pending.old mask.old → stepped d.facilities result store.new ≡ counted (S.step d (from_bytes d.facilities store.old) (record_meant r) (from_bytes (inputs_of d.facilities) stimulus.now)) }
{
    if ceilings::CYCLE <= r.cycle {
        return Err(Halted::Stopped(Stop::LastCycleReached));
    }
    let number = r.state as usize;
    if image.states.len() / record_sizes::STATE <= number {
        return Err(Halted::Stuck(Stuck::NoState));
    }
    let g = acted::acted(image, number, stimulus, store, pending, mask)?;
    finish::finish(image, r, g, store, pending, mask)
}
