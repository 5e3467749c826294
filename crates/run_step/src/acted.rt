// The first half of a cycle: inputs set, plain terminals cleared, and the actions of the state.
ghost use Rattle.std.specs.Prelude.{◌≡◌, ◌/◌, ◌≤◌, length};
ghost use Rattle.language.specs.Acting as T;
ghost use Rattle.language.specs.Calls.{over, stimulus_size};
ghost use Rattle.language.specs.Description.{Description, state_at};
ghost use Rattle.language.specs.Encode.{facility_size, operation_size, state_size};
ghost use Rattle.language.specs.Layout.{store_size_of};
ghost use Rattle.language.specs.Store as L;
ghost use Rattle.store_layout.specs.InBytes.{bytes};
ghost use Rattle.run_stores.specs.Seen.{did, ran_seen};
ghost use Rattle.run_actions.specs.Acts.{ActsIn};
ghost use Rattle.run_next.specs.Values.{Valued};
ghost use Rattle.run_end.specs.Stepped.{nothing_in, nothing_seen};

use image_records::record_sizes;
use image_sections::sections::Sections;
use image_sections::states;
use run_actions::run;
use run_begin::start;
use run_stores::doing::{Did, Doing, Named};

// Nothing done yet.
fn nothing() -> Doing
    ensures { result ≡ nothing_seen }
{
    let none = Named { first: 0, count: 0 };
    Doing {
        gotos: none,
        returns: 0,
        calls: none,
        sequenced: false,
        conflicts: 0,
    }
}

// What the actions of state `number` do from a store that begins a cycle.
pub fn acted(
    image: &Sections,
    number: usize,
    stimulus: &[u8],
    store: &mut [u8],
    pending: &mut [u8],
    mask: &mut [u8],
) -> Did
    requires { length image.now.facilities.now / facility_size ≤ 65536 }
    ensures { (d : Description) → ActsIn d image.now → length d.operations ≡ length image.now.operations.now / operation_size → Valued d image.now.expressions.now image.now.states.now → store_size_of d.facilities ≤ length store.old → stimulus_size d ≤ length stimulus.now → did result store.new pending.new mask.new ≡ ran_seen (T.run_actions (bytes d) d (state_at d number).actions (nothing_in (over (L.to_bytes d.facilities (L.begin d.facilities (L.from_bytes d.facilities store.old) (L.from_bytes (L.inputs_of d.facilities) stimulus.now))) store.old) pending.old mask.old)) }
{
    start::begin(image.facilities, store, stimulus);
    let list = states::state_at(image.states, number).actions;
    run::run_actions(
        image,
        store,
        pending,
        mask,
        image.states.len() / record_sizes::STATE,
        list.first,
        list.count,
        nothing(),
    )
}
