// A range: the last bound alone, or the first, a colon and the last.
ghost use Rattle.parse_bounds.specs.Ranges.{Bounded, Ranges, both_ends, last_end};

use parse_array::bounds;
use parse_step::{Bearing, Reached, State, Unread, kinds, taking};
use parse_tables::extents::Ends;
use text_words::Word;

// How far a range was read, and its ends.
#[derive(Clone, Copy)]
pub struct Ranged {
    pub reached: Reached,
    pub ends: Ends,
}

// The ends that two constants give.
fn both(first: Word, last: Word) -> Ends
    ensures { Bounded (both_ends first last) result }
{
    Ends {
        first: bounds::bound(first.value),
        left: first.at,
        last: bounds::bound(last.value),
        right: last.at,
    }
}

// The ends that a last bound gives: the first is one.
fn from_one(last: Word) -> Ends
    ensures { Bounded (last_end last) result }
{
    Ends {
        first: 1,
        left: last.at,
        last: bounds::bound(last.value),
        right: last.at,
    }
}

// Reads a range.
pub fn range(text: &[u8], w: Word, s: State) -> Result<Ranged, Unread>
    ensures { Ranges text.now w s result }
{
    let first = taking::keep_constant(text, w, s)?;
    if kinds::kind_of(first.next) != language::kinds::COLON {
        let ends = from_one(w);
        return Ok(Ranged {
            reached: first,
            ends,
        });
    }
    let colon = taking::take(text, first.next, first.state, false, Bearing::Level)?;
    let reached = taking::keep_constant(text, colon.next, colon.state)?;
    let ends = both(w, colon.next);
    Ok(Ranged { reached, ends })
}
