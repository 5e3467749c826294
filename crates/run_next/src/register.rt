// The sequencing register: which facility it is, and its value.
ghost use Rattle.std.specs.Prelude.{List, ◌≡◌, ℕ, ◌*◌, ◌/◌, ◌≤◌, length};
ghost use Rattle.language.specs.Description.{Description, sequencing_of, word_length};
ghost use Rattle.language.specs.Layout.{word_bytes};
ghost use Rattle.language.specs.Tree.{Name};
ghost use Rattle.value_operators.specs.Meaning.{valued};
ghost use Rattle.image_sections.specs.Declarations.{facility_meant};
ghost use Rattle.language.specs.Encode.{facility_size};
ghost use Rattle.store_layout.specs.Parts.{loaded};
ghost use Rattle.run_references.specs.Described.{Describes};
ghost use Rattle.run_references.specs.Places.{found_meant};

use image_records::record_sizes;
use image_sections::facilities::FacilityRecord;
use image_sections::{facilities, kinds};
use run_references::bounds;
use store_geometry::shapes;
use store_words::parts;
use value_operators::Value;

// The first sequencing register, if any.
pub fn sequencing(section: &[u8]) -> Option<u16>
    requires { length section.now / facility_size ≤ 65536 }
    ensures { (d : Description) (E : List ℕ) → Describes d section.now E → found_meant result ≡ sequencing_of d }
{
    for n in 0..section.len() / record_sizes::FACILITY {
        if kinds::is_sequencing(facilities::kind_at(section, n)) {
            return Some(n as u16);
        }
    }
    None
}

// All bytes of a facility's first word of at most 256 bits, spare bits included.
#[tactic(auto, unfolding(language::specs::Layout::word_bytes))]
pub fn first_word(store: &[u8], f: FacilityRecord) -> Value
    ensures { (name : Name) → word_length (facility_meant name f) ≤ 256 → valued result ≡ loaded store.now f.place (8 * word_bytes (word_length (facility_meant name f))) 0 (8 * word_bytes (word_length (facility_meant name f))) }
{
    let length = bounds::word_length(f);
    if value_operators::lengths::LONGEST < length {
        return Value {
            limbs: [0u64; 4],
            length: 0,
        };
    }
    let all = (8 * shapes::word_bytes(length as u64)) as u32;
    parts::load(store, f.place as usize, all, 0, all)
}
