// Positions, made from a place and answered as one.
ghost use Rattle.std.specs.Prelude.{◌≡◌};
ghost use Rattle.language.specs.Words as L;
ghost use Rattle.text_words.specs.Meaning.{positioned};

use crate::Position;

// The position of a place.
pub fn position(place: usize) -> Position
    ensures { positioned result ≡ L.position place }
{
    Position { place }
}

// The place of a position.
pub fn place(p: Position) -> usize
    ensures { L.position result ≡ positioned p }
{
    p.place
}
