// Facilities as they are declared: a record, the places of its words, and its name.
ghost use Rattle.std.specs.Prelude.{◌≡◌, ℕ, ◌<◌, ◌%◌, length};
ghost use Rattle.language.specs.Encode.{facility_record};
ghost use Rattle.language.specs.Tree.{Name};
ghost use Rattle.judge_records.specs.Noted.{facility_beside_bytes};
ghost use Rattle.parse_array.specs.Layout.{facility_rows};
ghost use Rattle.parse_tables.specs.Facilities.{FacilityAdded, facility_said, places_said};

use crate::extents::{Ends, Extent};
use crate::{Table, names, rows};
use image_records::record_sizes;
use image_sections::facilities::{FacilityKind, FacilityRecord, ShortBounds};
use image_sections::facility_bytes;
use parse_array::{Work, places};
use text_words::Position;

// What a declaration says: the name by its place and size, and of a computed terminal the number of its expression and the place of its `=`.
#[derive(Clone, Copy)]
pub struct Declared {
    pub kind: FacilityKind,
    pub at: Position,
    pub size: usize,
    pub extent: Extent,
    pub expression: u16,
    pub equals: Position,
}

// The low 16 bits of the bounds; the mark of a larger one stands with its place.
fn low_bounds(e: Ends) -> ShortBounds
    ensures { (result.first ≡ e.first % 65536) × (result.last ≡ e.last % 65536) }
{
    ShortBounds {
        first: (e.first % 65536) as u16,
        last: (e.last % 65536) as u16,
    }
}

// The bytes of a record, for a place in the store of which the low 16 bits are given.
pub fn facility_record(x: Declared, place: u16) -> [u8; record_sizes::FACILITY]
    ensures { (name : Name) (at : ℕ) → length name ≡ x.size → place ≡ at % 65536 → result ≡ facility_record at (facility_said name x) }
{
    let f = FacilityRecord {
        kind: x.kind,
        dimensions: x.extent.dimensions,
        name: (x.size % 256) as u8,
        words: low_bounds(x.extent.words),
        bits: low_bounds(x.extent.bits),
        place: x.expression,
    };
    facility_bytes::facility_bytes(f, place as u32)
}

// The bytes of the places beside it.
pub fn facility_beside(x: Declared) -> [u8; 12]
    ensures { (name : Name) → result ≡ facility_beside_bytes (facility_said name x) (places_said x) }
{
    let w = x.extent.words;
    let b = x.extent.bits;
    let p = places::ended(x.at, w.first, w.left, w.last, w.right);
    let q = places::ended(x.equals, b.first, b.left, b.last, b.right);
    let [n0, n1, w0, w1, w2, w3] = p.bytes();
    let [e0, e1, b0, b1, b2, b3] = q.bytes();
    [n0, n1, w0, w1, w2, w3, b0, b1, b2, b3, e0, e1]
}

// Adds facility n with the places of its words and its name.
pub fn add_facility(work: &mut Work, n: u16, place: u16, x: Declared)
    ensures { n < facility_rows → FacilityAdded n place x work.old work.new }
{
    rows::write(work, Table::Facilities, n, &facility_record(x, place));
    rows::write(work, Table::FacilityPlaces, n, &facility_beside(x));
    names::add_name(work, Table::FacilityNames, n, x.at, x.size);
}
