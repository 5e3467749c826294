// The words of a store: none has a spare bit.
ghost use Rattle.std.specs.Prelude.{List, ◌≡◌, ℕ, ◌≤◌, length};
ghost use Rattle.language.specs.Description.{Description};
ghost use Rattle.language.specs.Layout.{store_size_of};
ghost use Rattle.language.specs.Store as L;
ghost use Rattle.language.specs.Tree.{Name};
ghost use Rattle.image_sections.specs.Declarations.{facility_meant};
ghost use Rattle.run_references.specs.Described.{Describes};
ghost use Rattle.run_soundness.specs.Tested.{narrow_in};

use image_records::record_sizes;
use image_sections::facilities::FacilityRecord;
use image_sections::{facilities, kinds};
use run_references::bounds;
use store_words::spare;

// Those of one facility.
fn narrow_in(store: &[u8], f: FacilityRecord) -> bool
    ensures { (name : Name) → result ≡ narrow_in store.now f.place (facility_meant name f) }
{
    kinds::is_computed(f.kind)
        || spare::no_spare_bits(
            store,
            f.place as usize,
            bounds::word_count(f),
            bounds::word_length(f),
        )
}

// Those of all facilities of a section.
pub fn narrow(section: &[u8], store: &[u8]) -> bool
    ensures { (d : Description) (E : List ℕ) → Describes d section.now E → store_size_of d.facilities ≤ length store.now → result ≡ L.narrow d.facilities (L.from_bytes d.facilities store.now) }
{
    for n in 0..section.len() / record_sizes::FACILITY {
        if !narrow_in(store, facilities::facility_at(section, n)) {
            return false;
        }
    }
    true
}
