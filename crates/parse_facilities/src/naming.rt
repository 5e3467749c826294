// The name that a declaration begins with.
ghost use Rattle.parse_facilities.specs.Specs.{Names};

use parse_step::{Answer, Bearing, State, taking};
use text_words::Word;

// Takes a facility's name, which counts it; past the ceiling it makes no difference how many there are.
pub fn facility_name(text: &[u8], w: Word, s: State) -> Answer
    ensures { Names text.now w s result }
{
    let counted = State {
        facilities: s.facilities.saturating_add(1),
        ..s
    };
    taking::expect(text, w, counted, language::kinds::NAME, Bearing::Level)
}
