// Where facilities and their words lie in the store.
ghost use Rattle.std.specs.Prelude.{◌≡◌, ◌+◌, ◌*◌};
ghost use Rattle.language.specs.Description.{Facility};
ghost use Rattle.language.specs.Layout.{facility_bytes, word_bytes};
ghost use Rattle.store_geometry.specs.Places.{capped};
ghost use Rattle.store_geometry.specs.Shapes.{Shaped};

use crate::shapes;
use crate::shapes::Shape;
use language::ceilings;

// The largest store; one byte more stands for every larger one.
const LARGEST: usize = ceilings::STORE;

// The place after that of a facility: facility by facility it gives each one's place, and at last the size of the store.
pub fn place_after(place: u32, s: Shape) -> usize
    ensures { (f : Facility) → Shaped s f → result ≡ place + facility_bytes f }
{
    place as usize + shapes::facility_bytes(s)
}

// A place or size up to that of the largest store.
#[tactic(auto, unfolding(crate::specs::Places::capped, language::specs::Ceilings::largest_store))]
pub fn cap(place: usize) -> u32
    ensures { result ≡ capped place }
{
    place.min(LARGEST + 1) as u32
}

// The first byte of a word of a facility whose first byte is at `place`.
#[tactic(auto, using(crate::proofs::ShapeLaws::few_bytes))]
pub fn word_place(place: u32, word: u32, length: u32) -> usize
    ensures { result ≡ place + word * word_bytes length }
{
    place as usize + word as usize * shapes::word_bytes(length as u64)
}
