// A cycle begins: inputs are set from the stimulus, and plain terminals cleared.
ghost use Rattle.std.specs.Prelude.{List, ◌≡◌, ℕ, ◌/◌, ◌≤◌, length};
ghost use Rattle.language.specs.Calls.{over, stimulus_size};
ghost use Rattle.language.specs.Description.{Description};
ghost use Rattle.language.specs.Layout.{store_size_of};
ghost use Rattle.language.specs.Store as L;
ghost use Rattle.language.specs.Tree.{Name};
ghost use Rattle.image_sections.specs.Declarations.{facility_in, facility_meant, kind_meant, place_field_in};
ghost use Rattle.language.specs.Encode.{facility_size};
ghost use Rattle.run_references.specs.Described.{Describes};
ghost use Rattle.run_begin.specs.InBytes.{begins, begun_at, input_bytes};

use crate::{ranges, sizes};
use image_records::{bytes, record_sizes};
use image_sections::facilities;
use image_sections::facilities::{FacilityKind, FacilityRecord};

// One facility, whose words stand in the stimulus from `at` on where it is an input.
fn begin_one(store: &mut [u8], f: FacilityRecord, stimulus: &[u8], at: usize)
    ensures { (name : Name) → store.new ≡ begun_at (facility_meant name f) f.place store.old stimulus.now at }
{
    let place = f.place as usize;
    match f.kind {
        FacilityKind::Plain => ranges::clear(store, place, sizes::words_bytes(f)),
        FacilityKind::Input => bytes::put(
            store,
            place,
            bytes::part(stimulus, at, sizes::words_bytes(f)),
        ),
        FacilityKind::Register
        | FacilityKind::Sequencing
        | FacilityKind::Memory
        | FacilityKind::Computed => {}
    }
}

// Whether a cycle's begin changes words of this kind.
fn changes(kind: FacilityKind) -> bool
    ensures { result ≡ begins (kind_meant kind) }
{
    matches!(kind, FacilityKind::Plain | FacilityKind::Input)
}

// Facility n, whose record is read whole only where its words change. Answers how many bytes of the stimulus it took.
fn begin_at(section: &[u8], n: usize, store: &mut [u8], stimulus: &[u8], at: usize) -> usize
    ensures { (result ≤ 536870912) × ((name : Name) → (result ≡ input_bytes (facility_in section.now n name)) × (store.new ≡ begun_at (facility_in section.now n name) (place_field_in section.now n) store.old stimulus.now at)) }
{
    if !changes(facilities::kind_at(section, n)) {
        return 0;
    }
    let f = facilities::facility_at(section, n);
    begin_one(store, f, stimulus, at);
    sizes::input_bytes(f)
}

// Every facility: the bytes of the words that the cycle begins with, in front of what lies beyond the store.
pub fn begin(section: &[u8], store: &mut [u8], stimulus: &[u8])
    requires { length section.now / facility_size ≤ 65536 }
    ensures { (d : Description) (E : List ℕ) → Describes d section.now E → store_size_of d.facilities ≤ length store.old → stimulus_size d ≤ length stimulus.now → store.new ≡ over (L.to_bytes d.facilities (L.begin d.facilities (L.from_bytes d.facilities store.old) (L.from_bytes (L.inputs_of d.facilities) stimulus.now))) store.old }
{
    let mut at: usize = 0;
    for n in 0..section.len() / record_sizes::FACILITY {
        at += begin_at(section, n, store, stimulus, at);
    }
}
