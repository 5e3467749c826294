// The bounds and the shape of a facility's record, as geometry takes them.
ghost use Rattle.std.specs.Prelude.{◌≡◌};
ghost use Rattle.language.specs.Tree.{Name};
ghost use Rattle.store_geometry.specs.Shapes.{Shaped, bounds_meant};
ghost use Rattle.image_sections.specs.Declarations.{facility_meant, short_meant};

use crate::facilities::{FacilityRecord, ShortBounds};
use crate::kinds;
use store_geometry::bounds::Bounds;
use store_geometry::shapes::Shape;

// Bounds of a record.
pub fn bounds_of(b: ShortBounds) -> Bounds
    ensures { bounds_meant result ≡ short_meant b }
{
    Bounds {
        first: b.first as u32,
        last: b.last as u32,
    }
}

// What the words of a record's facility depend on.
pub fn shape_of(f: FacilityRecord) -> Shape
    ensures { (name : Name) → Shaped result (facility_meant name f) }
{
    Shape {
        computed: kinds::is_computed(f.kind),
        dimensions: f.dimensions,
        words: bounds_of(f.words),
        bits: bounds_of(f.bits),
    }
}
