// Where the bits of a place lie among the bytes of a store.
ghost use Rattle.std.specs.Prelude.{◌≡◌, ◌-◌, ◌^◌, ltb};
ghost use Rattle.language.specs.Tree.{Name};
ghost use Rattle.value_limbs.specs.Limbs.{number};
ghost use Rattle.image_sections.specs.Declarations.{facility_meant};
ghost use Rattle.store_layout.specs.Parts.{loaded, saved};
ghost use Rattle.run_stores.specs.Spots.{spot_of};

use image_sections::facilities::FacilityRecord;
use run_references::bounds;
use run_references::places::Place;
use store_geometry::places;
use store_words::{delayed, parts};
use value_operators::Value;

// The first byte of a word, its length, and which of its bits.
#[derive(Clone, Copy)]
pub struct Spot {
    pub at: usize,
    pub length: u32,
    pub from: u32,
    pub count: u32,
}

// The spot of a place in the facility f.
pub fn spot_of(f: FacilityRecord, p: Place) -> Spot
    ensures { (name : Name) → result ≡ spot_of f.place (facility_meant name f) p }
{
    let length = bounds::word_length(f);
    Spot {
        at: places::word_place(f.place as u32, p.word as u32, length),
        length,
        from: p.from as u32,
        count: p.count as u32,
    }
}

// Whether a bit of a spot is set in the mask.
pub fn marked(mask: &[u8], s: Spot) -> bool
    ensures { result ≡ ltb 0 (loaded mask.now s.at s.length s.from s.count).number }
{
    delayed::marked(mask, s.at, s.length, s.from, s.count)
}

// Puts a value there.
pub fn put(store: &mut [u8], s: Spot, v: Value)
    ensures { store.new ≡ saved store.old s.at s.length s.from s.count (number v.limbs) }
{
    parts::save(store, s.at, s.length, s.from, s.count, v);
}

// Lets a value wait, and marks its bits.
pub fn delay(pending: &mut [u8], mask: &mut [u8], s: Spot, v: Value)
    ensures { (pending.new ≡ saved pending.old s.at s.length s.from s.count (number v.limbs)) × (mask.new ≡ saved mask.old s.at s.length s.from s.count (2 ^ 256 - 1)) }
{
    parts::save(pending, s.at, s.length, s.from, s.count, v);
    delayed::mark(mask, s.at, s.length, s.from, s.count);
}
