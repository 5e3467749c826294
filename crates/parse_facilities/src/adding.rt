// A facility added to those declared.
ghost use Rattle.parse_facilities.specs.Listed.{Adds};

use crate::Progress;
use parse_array::Work;
use parse_step::{Reached, State};
use parse_tables::facilities::Declared;
use parse_tables::{facilities, stores};
use text_words::Word;

// Adds a facility; the word after its declaration has been seen.
pub fn declare(work: &mut Work, next: Word, s: State, place: u16, x: Declared) -> Progress
    ensures { Adds next s place x work.old work.new result }
{
    facilities::add_facility(work, s.known, place, x);
    let state = State {
        known: s.known.saturating_add(1),
        ..s
    };
    Progress {
        reached: Reached { next, state },
        place: stores::place_after(place, x),
    }
}
