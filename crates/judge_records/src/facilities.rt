// A facility's record with the marks beside it: its bounds may be above 65,535.
ghost use Rattle.std.specs.Prelude.{◌≡◌, ◌+◌, ◌<◌};
ghost use Rattle.language.specs.Description as D;
ghost use Rattle.language.specs.Tree.{Name};
ghost use Rattle.store_geometry.specs.Shapes.{Shaped, bounds_meant};
ghost use Rattle.image_records.specs.References.{widened};
ghost use Rattle.judge_records.specs.Noted.{large_no};
ghost use Rattle.judge_records.specs.Read.{FacilityRead, facility_meant};

use crate::places;
use image_records::{numbers, record_sizes};
use image_sections::facilities::FacilityKind;
use image_sections::kinds;
use store_geometry::bounds::Bounds;
use store_geometry::shapes::Shape;

#[derive(Clone, Copy)]
pub struct Facility {
    pub kind: FacilityKind,
    pub dimensions: u8,
    pub words: Bounds,
    pub bits: Bounds,
    // of a computed terminal, the number of its expression
    pub expression: u16,
}

// Bounds with the marks at the k-th place and the one after it.
fn widened_at(places: &[u8], k: usize, first: u16, last: u16) -> Bounds
    requires { k < 0x7fffffffffffffff }
    ensures { bounds_meant result ≡ widened (D.bounds first last) (large_no places.now k) (large_no places.now (k + 1)) }
{
    Bounds {
        first: numbers::joined(first, places::large_no(places, k)),
        last: numbers::joined(last, places::large_no(places, k + 1)),
    }
}

// Record n of a section of facilities; past its end, only the kind is told.
pub fn facility_at(facilities: &[u8], places: &[u8], n: usize) -> Facility
    ensures { FacilityRead facilities.now places.now n result }
{
    let f = image_sections::facilities::facility_at(facilities, n);
    if facilities.len() / record_sizes::FACILITY <= n {
        let none = Bounds { first: 0, last: 0 };
        return Facility {
            kind: f.kind,
            dimensions: 0,
            words: none,
            bits: none,
            expression: 0,
        };
    }
    Facility {
        kind: f.kind,
        dimensions: f.dimensions,
        words: widened_at(places, 6 * n + 1, f.words.first, f.words.last),
        bits: widened_at(places, 6 * n + 3, f.bits.first, f.bits.last),
        expression: f.place,
    }
}

// What the words of a facility depend on.
pub fn shape_of(f: Facility) -> Shape
    ensures { (name : Name) → Shaped result (facility_meant name f) }
{
    Shape {
        computed: kinds::is_computed(f.kind),
        dimensions: f.dimensions,
        words: f.words,
        bits: f.bits,
    }
}
