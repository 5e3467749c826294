// The places of words beside records without bounds.
ghost use Rattle.std.specs.Prelude.{◌≡◌};
ghost use Rattle.judge_records.specs.Noted.{place_bytes};
ghost use Rattle.text_words.specs.Meaning.{positioned};

use parse_array::places;
use text_words::Position;

// The bytes of a place.
pub fn place_row(at: Position) -> [u8; 2]
    ensures { result ≡ place_bytes 0 (positioned at) }
{
    places::plain(at).at.to_le_bytes()
}
