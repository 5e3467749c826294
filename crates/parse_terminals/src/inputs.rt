// The input of a terminal: INPUT, and in parentheses a constant and the terminal's name once more.
ghost use Rattle.std.specs.Prelude.{◌≡◌};
ghost use Rattle.language.specs.Scan as L;
ghost use Rattle.parse_operands.specs.References.{letters_of};
ghost use Rattle.parse_terminals.specs.Inputs.{Closing, Inputs, Repeats};

use image_records::bytes;
use language::refusals::Refusal;
use parse_step::{Answer, Bearing, State, kinds, taking};
use text_characters::names;
use text_words::{Word, places};

// Whether two words have the same letters, without regard to case.
fn alike(text: &[u8], v: Word, w: Word) -> bool
    ensures { result ≡ L.same (letters_of text.now w) (letters_of text.now v) }
{
    let declared = bytes::part(text, places::place(v.at), v.size);
    let repeated = bytes::part(text, places::place(w.at), w.size);
    names::matches(repeated, declared)
}

// Takes the declared name once more.
fn again(text: &[u8], name: Word, w: Word, s: State) -> Answer
    ensures { Repeats text.now name w s result }
{
    if kinds::kind_of(w) != language::kinds::NAME || !alike(text, name, w) {
        return taking::refuse(w, Refusal::NoContinuation);
    }
    taking::take(text, w, s, false, Bearing::Level)
}

// The name once more, and the parenthesis.
fn closed(text: &[u8], name: Word, w: Word, s: State) -> Answer
    ensures { Closing text.now name w s result }
{
    let repeated = again(text, name, w, s)?;
    taking::expect(
        text,
        repeated.next,
        repeated.state,
        language::kinds::CLOSE_PAREN,
        Bearing::Closes,
    )
}

// An input, of which the first word has been seen.
pub fn input(text: &[u8], name: Word, w: Word, s: State) -> Answer
    ensures { Inputs text.now name w s result }
{
    let first = taking::take(text, w, s, false, Bearing::Level)?;
    let open = taking::expect(
        text,
        first.next,
        first.state,
        language::kinds::OPEN_PAREN,
        Bearing::Opens,
    )?;
    let value = taking::expect(
        text,
        open.next,
        open.state,
        language::kinds::CONSTANT,
        Bearing::Level,
    )?;
    let comma = taking::expect(
        text,
        value.next,
        value.state,
        language::kinds::COMMA,
        Bearing::Level,
    )?;
    closed(text, name, comma.next, comma.state)
}
