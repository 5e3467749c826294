// Which part of a word a reference names.
ghost use Rattle.std.specs.Prelude.{◌≡◌, ℕ};
ghost use Rattle.language.specs.Meaning as M;
ghost use Rattle.image_sections.specs.Declarations.{short_meant};
ghost use Rattle.store_geometry.specs.Shapes.{bounds_meant};
ghost use Rattle.run_references.specs.Places.{located_meant, on_distance};
ghost use Rattle.run_references.specs.Worth.{answered};

use crate::bounds;
use crate::worth::{Halted, Stuck, Worth};
use image_sections::facilities::ShortBounds;
use image_sections::shapes;
use language::stops::Stop;
use store_geometry::bounds as geometry;
use store_geometry::bounds::Bounds;
use value_operators::Value;

// Facility, word, first bit from the left, number of bits.
#[derive(Clone, Copy)]
pub struct Place {
    pub facility: u8,
    pub word: u16,
    pub from: u16,
    pub count: u16,
}

pub type Located = Result<Place, Halted>;

// How far a subscript is from the first bound, or why it is nowhere.
pub type Distance = Result<u16, Halted>;

// How far a subscript is from the first bound, by what it is worth.
pub fn subscript(w: Worth, b: ShortBounds) -> Distance
    ensures { (on : ℕ → M.Located) → on_distance result on ≡ M.subscript (answered w) (short_meant b) on }
{
    let n = bounds::small(w?) as u64;
    let x = shapes::bounds_of(b);
    if !geometry::in_bounds(x, n) {
        return Err(Halted::Stopped(Stop::OutsideBounds));
    }
    Ok(geometry::from_first(x, n) as u16)
}

// A part of at most 256 bits.
pub fn narrow(facility: u8, word: u16, from: u16, count: u64) -> Located
    ensures { located_meant result ≡ M.up_to_longest (M.place facility word from count) }
{
    if (value_operators::lengths::LONGEST as u64) < count {
        return Err(Halted::Stuck(Stuck::WrongLength));
    }
    Ok(Place {
        facility,
        word,
        from,
        count: count as u16,
    })
}

// A constant part of a word, in the declared direction.
pub fn constant_part(facility: u8, word: u16, b: ShortBounds, x: Bounds) -> Located
    ensures { located_meant result ≡ M.constant_part (short_meant b) (bounds_meant x) (λ from count. M.up_to_longest (M.place facility word from count)) }
{
    let d = shapes::bounds_of(b);
    if !geometry::in_bounds(d, x.first as u64)
        || !geometry::in_bounds(d, x.last as u64)
        || !geometry::same_direction(d, x)
    {
        return Err(Halted::Stuck(Stuck::Outside));
    }
    let from = geometry::from_first(d, x.first as u64);
    narrow(facility, word, from as u16, geometry::span(x))
}
