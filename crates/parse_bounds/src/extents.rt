// Dimensions behind a name: none, one range, or two, in brackets.
ghost use Rattle.language.specs.Tree as T;
ghost use Rattle.parse_bounds.specs.Extents.{Absent, Follows, Measures, Sized};
ghost use Rattle.parse_bounds.specs.Ranges.{Bounded};

use crate::ranges;
use language::refusals::Refusal;
use parse_step::{Bearing, Reached, State, Unread, kinds, taking};
use parse_tables::extents::{Ends, Extent};
use text_words::{Word, places};

// How far dimensions were read, and their extent.
#[derive(Clone, Copy)]
pub struct Measured {
    pub reached: Reached,
    pub extent: Extent,
}

// Bounds that are not there.
fn nothing() -> Ends
    ensures { Absent result }
{
    let at = places::position(0);
    Ends {
        first: 0,
        left: at,
        last: 0,
        right: at,
    }
}

// No dimension.
fn single() -> Extent
    ensures { Sized T.single result }
{
    Extent {
        dimensions: 0,
        words: nothing(),
        bits: nothing(),
    }
}

// One dimension, of bits.
fn row(bits: Ends) -> Extent
    ensures { (x : T.Ends) → Bounded x bits → Sized (T.row x) result }
{
    Extent {
        dimensions: 1,
        words: nothing(),
        bits,
    }
}

// Two dimensions, of words and bits.
fn table(words: Ends, bits: Ends) -> Extent
    ensures { (x y : T.Ends) → Bounded x words → Bounded y bits → Sized (T.table x y) result }
{
    Extent {
        dimensions: 2,
        words,
        bits,
    }
}

// Reads dimensions, which may be left out.
pub fn dimensions(text: &[u8], w: Word, s: State) -> Result<Measured, Unread>
    ensures { Measures text.now w s result }
{
    if kinds::kind_of(w) != language::kinds::OPEN_BRACKET {
        let reached = Reached { next: w, state: s };
        let extent = single();
        return Ok(Measured { reached, extent });
    }
    let open = taking::take(text, w, s, false, Bearing::Opens)?;
    let first = ranges::range(text, open.next, open.state)?;
    behind_range(text, first.reached.next, first.reached.state, first.ends)
}

// Behind the first range: the bracket, or a comma, another range and the bracket.
fn behind_range(text: &[u8], w: Word, s: State, first: Ends) -> Result<Measured, Unread>
    ensures { Follows text.now w s first result }
{
    let kind = kinds::kind_of(w);
    if kind == language::kinds::CLOSE_BRACKET {
        let reached = taking::take(text, w, s, false, Bearing::Closes)?;
        let extent = row(first);
        return Ok(Measured { reached, extent });
    }
    if kind != language::kinds::COMMA {
        return taking::refuse(w, Refusal::NoContinuation);
    }
    let comma = taking::take(text, w, s, false, Bearing::Level)?;
    let second = ranges::range(text, comma.next, comma.state)?;
    let reached = taking::expect(
        text,
        second.reached.next,
        second.reached.state,
        language::kinds::CLOSE_BRACKET,
        Bearing::Closes,
    )?;
    let extent = table(first, second.ends);
    Ok(Measured { reached, extent })
}
