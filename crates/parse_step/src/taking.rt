// A word taken with its counts, and words refused.
ghost use Rattle.std.specs.Prelude.{◌≡◌, ◌+◌, ◌≤◌, length};
ghost use Rattle.language.specs.Machine as L;
ghost use Rattle.parse_step.specs.Course.{Seen, ahead, borne, counts5};
ghost use Rattle.parse_step.specs.Taken.{Expected, Follows, Keeps, Refuses, Took, Went, after_word, ends_ahead, tally_of};

use crate::{Answer, Bearing, Reached, State, Unread, kinds};
use language::ceilings;
use language::refusals::Refusal;
use text_words::{Fault, Word, next, places};

// A refusal of a word.
pub fn refuse<T>(w: Word, refusal: Refusal) -> Result<T, Unread>
    ensures { Refuses w refusal result }
{
    Err(Unread::Refused(Fault { at: w.at, refusal }))
}

// With one more there may be 65,536 counted or open, so that they are compared in 32 bits.
const MOST_COUNTED: u32 = ceilings::COUNTED as u32;

const DEEPEST: u32 = ceilings::NESTING as u32;

// Whether counts are within the ceilings.
fn fits(s: State, counted: u32, nesting: u32) -> bool
    ensures { result ≡ L.within_ceilings (counts5 s counted nesting) }
{
    if s.facilities > ceilings::FACILITIES
        || s.operations > ceilings::OPERATIONS
        || s.states > ceilings::STATES
        || counted > MOST_COUNTED
    {
        return false;
    }
    nesting <= DEEPEST
}

// How many are counted with a word that counts, or with one that does not.
fn tally(n: u16, counts: bool) -> u32
    ensures { result ≡ tally_of n counts }
{
    if counts {
        u32::from(n) + 1
    } else {
        u32::from(n)
    }
}

// How many are open after a word.
fn bear(n: u16, bearing: Bearing) -> u32
    ensures { result ≡ borne bearing n }
{
    match bearing {
        Bearing::Level => u32::from(n),
        Bearing::Opens => u32::from(n) + 1,
        Bearing::Closes => u32::from(n).saturating_sub(1),
    }
}

// Where a word ends.
fn end_of(text: &[u8], w: Word) -> usize
    ensures { w.at.place + w.size ≤ length text.now → result ≡ w.at.place + w.size }
{
    let place = places::place(w.at);
    if text.len() < place || text.len() - place < w.size {
        return text.len();
    }
    place + w.size
}

// The word behind another.
fn following(text: &[u8], w: Word) -> Word
    ensures { Follows text.now w result }
{
    next::next_word(text, end_of(text, w))
}

// Goes on to the next word with the counts of w, unless they pass a ceiling.
pub fn pass(w: Word, next: Word, s: State, counts: bool, bearing: Bearing) -> Answer
    ensures { Went w next (after_word counts bearing s) s result }
{
    let counted = tally(s.counted, counts);
    let nesting = bear(s.nesting, bearing);
    if fits(s, counted, nesting) {
        let state = State {
            counted: counted as u16,
            nesting: nesting as u16,
            ..s
        };
        return Ok(Reached { next, state });
    }
    refuse(w, Refusal::CeilingPassed)
}

// Takes a word, unless its counts pass a ceiling.
pub fn take(text: &[u8], w: Word, s: State, counts: bool, bearing: Bearing) -> Answer
    ensures { Took text.now w (after_word counts bearing s) s result }
{
    pass(w, following(text, w), s, counts, bearing)
}

// Takes a word of a kind that must come.
pub fn expect(text: &[u8], w: Word, s: State, kind: u8, bearing: Bearing) -> Answer
    ensures { Expected text.now kind bearing w s result }
{
    if kinds::kind_of(w) == kind {
        return take(text, w, s, false, bearing);
    }
    refuse(w, Refusal::NoContinuation)
}

// Keeps a constant that must come; it is not counted.
pub fn keep_constant(text: &[u8], w: Word, s: State) -> Answer
    ensures { Keeps text.now w s result }
{
    if kinds::kind_of(w) == language::kinds::CONSTANT {
        let next = following(text, w);
        return Ok(Reached { next, state: s });
    }
    refuse(w, Refusal::NoContinuation)
}

// Whether a constant and a colon come: the ends of a part.
pub fn ends_ahead(text: &[u8], w: Word) -> bool
    ensures { Seen text.now w → result ≡ ends_ahead (ahead text.now w) }
{
    kinds::kind_of(w) == language::kinds::CONSTANT
        && kinds::kind_of(following(text, w)) == language::kinds::COLON
}
