// Where facilities lie in the store: the low 16 bits of each place, which are what a record has room for.
ghost use Rattle.std.specs.Prelude.{◌≡◌, ◌+◌, ◌%◌};
ghost use Rattle.language.specs.Layout.{facility_bytes};
ghost use Rattle.language.specs.Tree.{Name};
ghost use Rattle.store_geometry.specs.Shapes.{Shaped, bounds_meant};
ghost use Rattle.parse_tables.specs.Facilities.{ends_bounds, facility_said};

use crate::extents::Ends;
use crate::facilities::Declared;
use image_sections::kinds;
use store_geometry::bounds::Bounds;
use store_geometry::places;
use store_geometry::shapes::Shape;

// Bounds without the places of their words.
fn bounds_of(e: Ends) -> Bounds
    ensures { bounds_meant result ≡ ends_bounds e }
{
    Bounds {
        first: e.first,
        last: e.last,
    }
}

// What the words of a declared facility depend on.
fn shape_of(x: Declared) -> Shape
    ensures { (name : Name) → Shaped result (facility_said name x) }
{
    Shape {
        computed: kinds::is_computed(x.kind),
        dimensions: x.extent.dimensions,
        words: bounds_of(x.extent.words),
        bits: bounds_of(x.extent.bits),
    }
}

// The place after that of a facility.
pub fn place_after(place: u16, x: Declared) -> u16
    ensures { (name : Name) → result ≡ (place + facility_bytes (facility_said name x)) % 65536 }
{
    (places::place_after(place as u32, shape_of(x)) % 65536) as u16
}
