// The run record advanced where it stands: by the one function that it is lent to mutably.
ghost use Rattle.std.specs.Prelude.{◌≡◌, ◌/◌, ◌≤◌, length};
ghost use Rattle.language.specs.Encode.{facility_size, state_size};
ghost use Rattle.run_left.specs.Kept.{kept};
ghost use Rattle.run_advance.specs.Settled.{Settled};

use image_sections::sections::Sections;
use run_end::outcome::Ended;
use run_next::record::Record;

// A cycle from the record lent, which is advanced where it stands, or left as found if the cycle does not complete.
fn advance(
    image: &Sections,
    r: &mut Record,
    stimulus: &[u8],
    store: &mut [u8],
    pending: &mut [u8],
    mask: &mut [u8],
) -> Ended
    requires { (length image.now.facilities.now / facility_size ≤ 65536) × (length image.now.states.now / state_size ≤ 65536) × (r.old.held ≤ 16) }
    ensures { Settled image.now r.old stimulus.now store.old pending.old mask.old result store.new × (r.new ≡ kept result r.old) }
{
    let ended = run_step::step::step(image, *r, stimulus, store, pending, mask);
    *r = run_left::keep_record(*r, &ended);
    ended
}

// A cycle from a record by value, which is lent to be advanced where it stands: what then stands there, on a stop too, and what the cycle came to.
pub fn lent(
    image: &Sections,
    r: Record,
    stimulus: &[u8],
    store: &mut [u8],
    pending: &mut [u8],
    mask: &mut [u8],
) -> (Record, Ended)
    requires { (length image.now.facilities.now / facility_size ≤ 65536) × (length image.now.states.now / state_size ≤ 65536) × (r.held ≤ 16) }
    ensures { Settled image.now r stimulus.now store.old pending.old mask.old result.1 store.new × (result.0 ≡ kept result.1 r) }
{
    let mut record = r;
    let ended = advance(image, &mut record, stimulus, store, pending, mask);
    (record, ended)
}
