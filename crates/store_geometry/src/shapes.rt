// How many words a facility has, how long they are, and how many bytes they take.
ghost use Rattle.std.specs.Prelude.{◌≡◌, ◌*◌, ◌^◌, ◌≤◌};
ghost use Rattle.language.specs.Description.{Facility, word_count, word_length};
ghost use Rattle.language.specs.Layout.{facility_bytes, word_bytes};
ghost use Rattle.store_geometry.specs.Shapes.{Shaped};

use crate::bounds;
use crate::bounds::Bounds;

// What the words of a facility depend on.
#[derive(Clone, Copy)]
pub struct Shape {
    pub computed: bool,
    pub dimensions: u8,
    pub words: Bounds,
    pub bits: Bounds,
}

// Bits of a word.
#[tactic(auto, unfolding(language::specs::Description::word_length))]
pub fn word_length(s: Shape) -> u64
    ensures { (result ≤ 2 ^ 32) × ((f : Facility) → Shaped s f → result ≡ word_length f) }
{
    if s.dimensions == 0 {
        return 1;
    }
    bounds::span(s.bits)
}

// How many words there are.
#[tactic(auto, unfolding(language::specs::Description::word_count))]
pub fn word_count(s: Shape) -> u64
    ensures { (result ≤ 2 ^ 32) × ((f : Facility) → Shaped s f → result ≡ word_count f) }
{
    if s.dimensions != 2 {
        return 1;
    }
    bounds::span(s.words)
}

// Bytes of a word.
#[tactic(auto, unfolding(language::specs::Layout::word_bytes))]
pub fn word_bytes(length: u64) -> usize
    ensures { result ≡ word_bytes length }
{
    length.div_ceil(8) as usize
}

// Bytes of all words.
#[tactic(auto, using(crate::proofs::ShapeLaws::few_bytes))]
pub fn words_bytes(s: Shape) -> usize
    ensures { (result ≤ 2 ^ 62) × ((f : Facility) → Shaped s f → result ≡ word_count f * word_bytes (word_length f)) }
{
    word_count(s) as usize * word_bytes(word_length(s))
}

// Bytes of a facility: a computed terminal has none.
#[tactic(auto, unfolding(language::specs::Layout::facility_bytes))]
pub fn facility_bytes(s: Shape) -> usize
    ensures { (result ≤ 2 ^ 62) × ((f : Facility) → Shaped s f → result ≡ facility_bytes f) }
{
    if s.computed {
        return 0;
    }
    words_bytes(s)
}
