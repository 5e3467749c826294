// The places beside a record, as they are written: a bound above 65,535 leaves its mark.
ghost use Rattle.std.specs.Prelude.{◌≡◌};
ghost use Rattle.language.specs.Description.{bounds, node_places};
ghost use Rattle.language.specs.Encode as L;
ghost use Rattle.judge_records.specs.Noted.{end_places, place_bytes, plain_places};
ghost use Rattle.text_words.specs.Meaning.{positioned};
ghost use Rattle.parse_array.specs.Held.{fields};

use crate::nodes::Beside;
use judge_records::places::LARGE;
use language::ceilings;
use text_words::{Position, places};

// What stands for every bound that is too large.
const PAST: u32 = ceilings::BOUND + 1;

// A place, and the mark of a bound.
fn field(p: Position, bound: u32) -> u16
    ensures { L.two result ≡ place_bytes bound (positioned p) }
{
    let place = (places::place(p) % ceilings::TEXT) as u16;
    if bound / PAST % 2 == 1 {
        place + LARGE
    } else {
        place
    }
}

// Of a record with a word alone.
pub fn plain(p: Position) -> Beside
    ensures { fields result ≡ plain_places (node_places (positioned p)) }
{
    let nowhere = places::position(0);
    Beside {
        at: field(p, 0),
        first: field(nowhere, 0),
        last: field(nowhere, 0),
    }
}

// Of a part with these ends.
pub fn ended(p: Position, a: u32, first: Position, b: u32, last: Position) -> Beside
    ensures { fields result ≡ end_places (bounds a b) (record { at = positioned p; first = positioned first; last = positioned last }) }
{
    Beside {
        at: field(p, 0),
        first: field(first, a),
        last: field(last, b),
    }
}
