// What follows the actions of a cycle: delayed stores land, and the next state is entered unless the cycle stops.
ghost use Rattle.std.specs.Prelude.{true, ◌≡◌, ◌/◌, ◌≤◌, ◌<◌, length};
ghost use Rattle.std.proofs.Math.Option.{none};
ghost use Rattle.language.specs.Acting as T;
ghost use Rattle.language.specs.Description.{Description};
ghost use Rattle.language.specs.Encode.{facility_size, state_size};
ghost use Rattle.language.specs.Layout.{store_size_of};
ghost use Rattle.language.specs.Step as S;
ghost use Rattle.language.specs.Store.{Held, from_bytes};
ghost use Rattle.store_layout.specs.Slices.{landed};
ghost use Rattle.run_references.specs.Places.{found_meant};
ghost use Rattle.run_next.specs.Seen.{record_meant};
ghost use Rattle.run_end.specs.Register.{Enters};
ghost use Rattle.run_end.specs.Stepped.{Landed, counted, stepped};

use crate::outcome::{Ended, Stepped};
use crate::register;
use image_records::record_sizes;
use image_sections::sections::Sections;
use run_next::record::Record;
use run_next::{bearer, record, stops};
use run_references::worth::{Halted, Stuck};
use run_stores::doing::Doing;
use store_words::delayed;

// The state whose value the sequencing register has, where a delayed store went there.
fn borne(image: &Sections, store: &[u8], sequenced: bool) -> Option<u16>
    requires { (length image.now.facilities.now / facility_size ≤ 65536) × (length image.now.states.now / state_size ≤ 65536) }
    ensures { (d : Description) → Enters d image.now.facilities.now image.now.expressions.now image.now.states.now → store_size_of d.facilities ≤ length store.now → sequenced ≡ true → found_meant result ≡ S.sequenced_state d (from_bytes d.facilities store.now) }
{
    if !sequenced {
        return None;
    }
    bearer::bearer(
        image.expressions,
        image.states,
        register::register_value(image.facilities, store),
    )
}

// The next state is entered; `borne` is the state whose value the sequencing register has.
fn enter(image: &Sections, r: Record, g: Doing, borne: Option<u16>, store: &mut [u8]) -> Ended
    requires { (length image.now.facilities.now / facility_size ≤ 65536) × (r.state < 4294967295) × (r.cycle < 4294967295) × (r.held ≤ 16) }
    ensures { (d : Description) (c : T.Doing Held) → Enters d image.now.facilities.now image.now.expressions.now image.now.states.now → store_size_of d.facilities ≤ length store.old → Landed d g store.old c → (c.sequenced ≡ true → found_meant borne ≡ S.sequenced_state d (from_bytes d.facilities store.old)) → stepped d.facilities result store.new ≡ counted (S.or_stopped d (record_meant r) c none) }
{
    let next = record::plain_next(r, g, borne);
    let after = record::next_record(r, g, next);
    if !register::set_register(image, store, after.state) {
        return Err(Halted::Stuck(Stuck::NoStateValue));
    }
    Ok(Stepped {
        record: after,
        conflicts: g.conflicts,
    })
}

// Delayed stores land; then the first stop, or the next state.
pub fn finish(
    image: &Sections,
    r: Record,
    g: Doing,
    store: &mut [u8],
    pending: &[u8],
    mask: &[u8],
) -> Ended
    requires { (length image.now.facilities.now / facility_size ≤ 65536) × (length image.now.states.now / state_size ≤ 65536) × (r.state < 4294967295) × (r.cycle < 4294967295) × (r.held ≤ 16) }
    ensures { (d : Description) (c : T.Doing Held) → Enters d image.now.facilities.now image.now.expressions.now image.now.states.now → store_size_of d.facilities ≤ length store.old → Landed d g (landed store.old pending.now mask.now) c → stepped d.facilities result store.new ≡ counted (S.finished d (record_meant r) c) }
{
    delayed::land(store, pending, mask);
    let found = borne(image, store, g.sequenced);
    let count = (image.states.len() / record_sizes::STATE) as u32;
    match stops::stop_after(count, r, g, found) {
        Some(stop) => Err(Halted::Stopped(stop)),
        None => enter(image, r, g, found, store),
    }
}
