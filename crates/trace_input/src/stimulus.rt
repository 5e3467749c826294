// A line of input bits becomes a stimulus: the input terminals' words one after the other.
ghost use Rattle.std.specs.Prelude.{List, ◌≡◌, ℕ, ◌≤◌, drop, length as size};
ghost use Rattle.language.specs.Calls.{stimulus_size};
ghost use Rattle.language.specs.Description.{Description};
ghost use Rattle.language.specs.Store.{inputs_of};
ghost use Rattle.language.specs.Trace.{bits_number};
ghost use Rattle.language.specs.Tree.{Name};
ghost use Rattle.image_sections.specs.Declarations.{facility_meant};
ghost use Rattle.run_references.specs.Described.{Describes};
ghost use Rattle.trace_input.specs.Stimulus.{Worded, input_bits, line_bytes, octet_meant, took, took_meant};

use image_records::record_sizes;
use image_sections::facilities::FacilityRecord;
use image_sections::{facilities, kinds};
use run_references::bounds;
use store_geometry::shapes;
use store_words::slices;

// Up to eight bits of a line, the first one the most significant.
fn octet_at(line: &[u8], at: usize, count: usize) -> Option<u8>
    requires { (at ≤ size line.now) × (count ≤ 8) }
    ensures { octet_meant result ≡ bits_number count 0 (drop at line.now) }
{
    let mut number: u8 = 0;
    for place in at..at + count {
        let b = *line.get(place)?;
        if b < b'0' || b'1' < b {
            return None;
        }
        number = number * 2 + (b - b'0');
    }
    Some(number)
}

// A word from the bits of a line, put into the stimulus byte by byte; the first byte may have fewer bits.
fn word(line: &[u8], at: usize, length: u32, stimulus: &mut [u8], place: usize) -> bool
    requires { (at ≤ size line.now) × (place ≤ size stimulus.old) }
    ensures { Worded length line.now at stimulus.old place result stimulus.new }
{
    let bytes = shapes::word_bytes(length as u64);
    if stimulus.len() - place < bytes {
        return false;
    }
    let mut left = length as usize;
    let mut from = at;
    let mut to = place;
    for rest in (0..bytes).rev() {
        let count = left - 8 * rest;
        let Some(b) = octet_at(line, from, count) else {
            return false;
        };
        stimulus[to] = b;
        from += count;
        to += 1;
        left = 8 * rest;
    }
    true
}

// How many bits a line has for a facility.
fn input_bits(f: FacilityRecord) -> u32
    ensures { (name : Name) → result ≡ input_bits (facility_meant name f) }
{
    if kinds::is_input(f.kind) {
        bounds::word_length(f)
    } else {
        0
    }
}

// The bits of all input terminals in order of declaration, and nothing after them: how many bytes the stimulus has.
pub fn stimulus_of(section: &[u8], line: &[u8], stimulus: &mut [u8]) -> Option<usize>
    ensures { (d : Description) (E : List ℕ) → Describes d section.now E → stimulus_size d ≤ size stimulus.old → took_meant result stimulus.new ≡ took (line_bytes (inputs_of d.facilities) line.now) stimulus.old }
{
    let count = section.len() / record_sizes::FACILITY;
    let mut at: usize = 0;
    let mut place: usize = 0;
    for n in 0..count {
        let length = input_bits(facilities::facility_at(section, n));
        if !word(line, at, length, stimulus, place) {
            slices::zero(stimulus);
            return None;
        }
        at += length as usize;
        place += shapes::word_bytes(length as u64);
    }
    if at == line.len() {
        return Some(place);
    }
    slices::zero(stimulus);
    None
}
