// The end of the section: CONTROL, alone or behind a period or END.
ghost use Rattle.parse_sections.specs.Heads.{Ends, Shuts};

use language::refusals::Refusal;
use parse_step::{Answer, Bearing, State, kinds, taking};
use text_words::Word;

// A word that ends a list of declarations, and CONTROL behind it.
fn closed(text: &[u8], w: Word, s: State) -> Answer
    ensures { Shuts text.now w s result }
{
    let end = taking::take(text, w, s, false, Bearing::Level)?;
    taking::expect(
        text,
        end.next,
        end.state,
        language::kinds::CONTROL,
        Bearing::Level,
    )
}

// What ends the operations, where no comma follows.
pub fn ended(text: &[u8], w: Word, s: State) -> Answer
    ensures { Ends text.now w s result }
{
    let kind = kinds::kind_of(w);
    if kind == language::kinds::CONTROL {
        return taking::take(text, w, s, false, Bearing::Level);
    }
    if kind != language::kinds::PERIOD && kind != language::kinds::END {
        return taking::refuse(w, Refusal::NoContinuation);
    }
    closed(text, w, s)
}
