// Whether a store and a record are sound: what a cycle tests before it begins.
ghost use Rattle.std.specs.Prelude.{◌≡◌, ◌/◌, ◌≤◌, length};
ghost use Rattle.language.specs.Calls.{sound_bytes};
ghost use Rattle.language.specs.Description.{Description};
ghost use Rattle.language.specs.Encode.{facility_size};
ghost use Rattle.language.specs.Layout.{store_size_of};
ghost use Rattle.run_soundness.specs.Tested.{Testable};

use crate::{numbers, record, register, words};
use image_records::record_sizes;

// The mark, the record's numbers, the words, and the sequencing register.
pub fn sound(
    facilities: &[u8],
    expressions: &[u8],
    states: &[u8],
    store: &[u8],
    record: &[u8],
) -> bool
    requires { length facilities.now / facility_size ≤ 65536 }
    ensures { (d : Description) → Testable d facilities.now expressions.now states.now → store_size_of d.facilities ≤ length store.now → result ≡ sound_bytes d store.now «record».now }
{
    let r = record::record_at(record);
    record::marked(record)
        && numbers::record_sound(states.len() / record_sizes::STATE, r)
        && words::narrow(facilities, store)
        && register::agrees(facilities, expressions, states, store, r.state)
}
