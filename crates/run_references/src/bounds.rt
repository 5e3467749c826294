// Numbers as far as bounds go, and what a facility's record says of its words: its bounds are below 65,536.
ghost use Rattle.std.specs.Prelude.{◌≡◌, ◌≤◌, min};
ghost use Rattle.language.specs.Description.{word_count, word_length};
ghost use Rattle.language.specs.Tree.{Name};
ghost use Rattle.value_limbs.specs.Limbs.{number};
ghost use Rattle.image_sections.specs.Declarations.{facility_meant};

use image_sections::facilities::FacilityRecord;
use image_sections::shapes;
use language::ceilings;
use value_operators::{Value, numbers};

// What stands for every number that no bound reaches.
const BEYOND: u32 = ceilings::BOUND + 1;

const BEYOND_64: u64 = BEYOND as u64;

// A value's number, as far as bounds go.
pub fn small(v: Value) -> u32
    ensures { result ≡ min (number v.limbs) 65536 }
{
    if numbers::fits64(v) {
        let n = numbers::low64(v);
        if n < BEYOND_64 {
            return n as u32;
        }
    }
    BEYOND
}

// Bits of a facility's word.
pub fn word_length(f: FacilityRecord) -> u32
    ensures { (result ≤ 65536) × ((name : Name) → result ≡ word_length (facility_meant name f)) }
{
    store_geometry::shapes::word_length(shapes::shape_of(f)) as u32
}

// How many words a facility has.
pub fn word_count(f: FacilityRecord) -> u32
    ensures { (result ≤ 65536) × ((name : Name) → result ≡ word_count (facility_meant name f)) }
{
    store_geometry::shapes::word_count(shapes::shape_of(f)) as u32
}
