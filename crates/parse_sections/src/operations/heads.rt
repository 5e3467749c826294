// What an operation begins with: its name, `=` and `[`.
ghost use Rattle.parse_sections.specs.Heads.{Heads};

use parse_step::{Answer, Bearing, State, taking};
use text_words::Word;

// Takes all before the body. The name counts the operation; past the ceiling it makes no difference how many there are.
pub fn head(text: &[u8], w: Word, s: State) -> Answer
    ensures { Heads text.now w s result }
{
    let counted = State {
        operations: s.operations.saturating_add(1),
        ..s
    };
    let named = taking::expect(text, w, counted, language::kinds::NAME, Bearing::Level)?;
    let equal = taking::expect(
        text,
        named.next,
        named.state,
        language::kinds::EQUAL,
        Bearing::Level,
    )?;
    taking::expect(
        text,
        equal.next,
        equal.state,
        language::kinds::OPEN_BRACKET,
        Bearing::Opens,
    )
}
