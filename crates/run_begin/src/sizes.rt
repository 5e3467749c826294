// How many bytes a facility's words take, in the store and in the stimulus.
ghost use Rattle.std.specs.Prelude.{◌≡◌, ◌*◌, ◌≤◌};
ghost use Rattle.language.specs.Description.{word_count, word_length};
ghost use Rattle.language.specs.Layout.{word_bytes};
ghost use Rattle.language.specs.Tree.{Name};
ghost use Rattle.image_sections.specs.Declarations.{facility_meant};
ghost use Rattle.run_begin.specs.InBytes.{input_bytes};

use image_sections::facilities::FacilityRecord;
use image_sections::{kinds, shapes};

// Bytes of all words.
pub fn words_bytes(f: FacilityRecord) -> usize
    ensures { (result ≤ 536870912) × ((name : Name) → result ≡ word_count (facility_meant name f) * word_bytes (word_length (facility_meant name f))) }
{
    store_geometry::shapes::words_bytes(shapes::shape_of(f))
}

// Bytes that a facility has in the stimulus.
pub fn input_bytes(f: FacilityRecord) -> usize
    ensures { (result ≤ 536870912) × ((name : Name) → result ≡ input_bytes (facility_meant name f)) }
{
    if kinds::is_input(f.kind) {
        words_bytes(f)
    } else {
        0
    }
}
