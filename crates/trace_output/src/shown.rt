// The facilities of the store in print.
ghost use Rattle.std.specs.Prelude.{true, List, ◌≡◌, ℕ, ◌+◌, ◌-◌, ◌/◌, ◌%◌, ◌^◌, ◌≤◌, ◌<◌, length as size};
ghost use Rattle.language.specs.Description.{Description};
ghost use Rattle.language.specs.Layout.{store_size_of, word_bytes};
ghost use Rattle.language.specs.Store.{from_bytes};
ghost use Rattle.language.specs.Trace as T;
ghost use Rattle.language.specs.Tree.{Name};
ghost use Rattle.image_sections.specs.Declarations.{facility_meant};
ghost use Rattle.language.specs.Encode.{facility_size};
ghost use Rattle.store_layout.specs.Layout.{word_in};
ghost use Rattle.run_references.specs.Described.{Describes};
ghost use Rattle.trace_output.specs.Adds.{Adds};
ghost use Rattle.trace_output.specs.Texts.{HasWord, Named, facility_text, word_text};

use crate::out;
use image_records::{bytes, record_sizes};
use image_sections::facilities::FacilityRecord;
use image_sections::{facilities, kinds};
use run_references::bounds;
use store_geometry::places;
use store_words::parts;
use value_operators::numbers;

// Bit k of a word in print; bit 0 is the most significant.
fn bit(store: &[u8], place: usize, length: u32, k: u32) -> u8
    requires { (place + word_bytes length ≤ size store.now) × (k < length) }
    ensures { result ≡ word_in store.now place length / 2 ^ (length - (k + 1)) % 2 + 48 }
{
    let v = parts::load(store, place, length, k, 1);
    let b = numbers::low64(v) as u8;
    b + b'0'
}

// The bits of a word, the most significant first.
pub fn bits(out: &mut [u8], at: usize, store: &[u8], place: usize, length: u32) -> usize
    requires { place + word_bytes length ≤ size store.now }
    ensures { Adds (T.bits length (word_in store.now place length)) out.old at out.new result }
{
    let mut end = at;
    for k in 0..length {
        end = out::push(out, end, bit(store, place, length, k));
    }
    end
}

// The bits of a facility's first word, where the store has it.
fn word(out: &mut [u8], at: usize, f: FacilityRecord, store: &[u8]) -> usize
    ensures { (size out.new ≡ size out.old) × ((name : Name) → HasWord (facility_meant name f) f.place store.now → Adds (word_text (facility_meant name f) f.place store.now) out.old at out.new result) }
{
    let length = bounds::word_length(f);
    if store.len() < places::word_place(f.place as u32, 1, length) {
        return at;
    }
    bits(out, at, store, f.place as usize, length)
}

// A facility that is shown: a blank, its name, `=` and its bits. Any other is left out.
fn facility(out: &mut [u8], at: usize, f: FacilityRecord, name: &[u8], store: &[u8]) -> usize
    ensures { (size out.new ≡ size out.old) × ((T.shown (facility_meant name.now f) ≡ true → HasWord (facility_meant name.now f) f.place store.now) → Adds (facility_text (facility_meant name.now f) f.place store.now) out.old at out.new result) }
{
    if kinds::is_computed(f.kind) || 1 < f.dimensions {
        return at;
    }
    let mut end = out::push(out, at, b' ');
    end = out::append(out, end, name);
    end = out::push(out, end, b'=');
    word(out, end, f, store)
}

// All facilities that are shown, in order of declaration.
pub fn facilities_line(
    out: &mut [u8],
    at: usize,
    section: &[u8],
    names: &[u8],
    store: &[u8],
) -> usize
    requires { size section.now / facility_size ≤ 65536 }
    ensures { (size out.new ≡ size out.old) × ((d : Description) (E : List ℕ) → Describes d section.now E → Named d section.now names.now → store_size_of d.facilities ≤ size store.now → Adds (T.facilities_line d.facilities (from_bytes d.facilities store.now)) out.old at out.new result) }
{
    let count = section.len() / record_sizes::FACILITY;
    let mut end = at;
    let mut offset: usize = 0;
    for n in 0..count {
        let f = facilities::facility_at(section, n);
        let length = f.name as usize;
        end = facility(out, end, f, bytes::part(names, offset, length), store);
        offset += length;
    }
    end
}
