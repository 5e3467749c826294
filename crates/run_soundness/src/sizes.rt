// How large the store is.
ghost use Rattle.std.specs.Prelude.{List, ◌≡◌, ℕ, ◌≤◌};
ghost use Rattle.language.specs.Description.{Description};
ghost use Rattle.language.specs.Layout.{store_size_of};
ghost use Rattle.run_references.specs.Described.{Describes};

use image_records::record_sizes;
use image_sections::{facilities, shapes};
use store_geometry::places;

// Bytes of the store of a section of facilities; past the largest store, one more than that.
pub fn store_size(section: &[u8]) -> usize
    ensures { (d : Description) (E : List ℕ) → Describes d section.now E → store_size_of d.facilities ≤ 16384 → result ≡ store_size_of d.facilities }
{
    let mut size: u32 = 0;
    for n in 0..section.len() / record_sizes::FACILITY {
        let shape = shapes::shape_of(facilities::facility_at(section, n));
        size = places::cap(places::place_after(size, shape));
    }
    size as usize
}
