// The five forms of a reference, and what each takes of a facility.
ghost use Rattle.std.specs.Prelude.{◌≡◌};
ghost use Rattle.language.specs.Description.{Facility};
ghost use Rattle.language.specs.References.{right_count, taken_length};
ghost use Rattle.store_geometry.specs.Shapes.{Shaped};
ghost use Rattle.store_geometry.specs.Subscripts.{subscripts_meant};

use crate::bounds::Bounds;
use crate::shapes::Shape;
use crate::{bounds, shapes};

// X, X[e], X[c:d], X[e,e], X[e,c:d].
#[derive(Clone, Copy)]
pub enum Subscripts {
    Whole,
    One(u16),
    Part(Bounds),
    Two(u16, u16),
    WordPart(u16, Bounds),
}

// Whether the number of subscripts is right for the dimensions.
#[tactic(auto, unfolding(language::specs::References::right_count))]
pub fn right_count(dimensions: u8, s: Subscripts) -> bool
    ensures { result ≡ right_count dimensions (subscripts_meant s) }
{
    match s {
        Subscripts::Whole => dimensions <= 1,
        Subscripts::One(_) => 1 <= dimensions && dimensions <= 2,
        Subscripts::Part(_) => dimensions == 1,
        Subscripts::Two(_, _) | Subscripts::WordPart(_, _) => dimensions == 2,
    }
}

// How many bits a reference takes.
#[tactic(auto, unfolding(language::specs::References::taken_length))]
pub fn taken_length(f: Shape, s: Subscripts) -> u64
    ensures { (x : Facility) → Shaped f x → result ≡ taken_length x (subscripts_meant s) }
{
    match s {
        Subscripts::Whole => shapes::word_length(f),
        Subscripts::One(_) if f.dimensions == 1 => 1,
        Subscripts::One(_) => shapes::word_length(f),
        Subscripts::Part(b) | Subscripts::WordPart(_, b) => bounds::span(b),
        Subscripts::Two(_, _) => 1,
    }
}
