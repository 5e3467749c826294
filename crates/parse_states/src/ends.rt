// The end of the text: a period or END, then `$` or nothing.
ghost use Rattle.std.specs.Prelude.{List, [], ◌∷◌, ℕ};
ghost use Rattle.language.specs.Machine as L;
ghost use Rattle.parse_states.specs.States.{Ending, Finish, more_stack};

use language::refusals::Refusal;
use parse_step::{Answer, Bearing, Reached, State, kinds, taking};
use text_words::{Word, next};

// No word is left.
fn nothing(w: Word, s: State) -> Answer
    ensures { (text : List ℕ) → Finish [] text w s result }
{
    if next::is_end(w.kind) {
        return Ok(Reached { next: w, state: s });
    }
    taking::refuse(w, Refusal::NoContinuation)
}

// A `$` or nothing, and no word behind it.
fn dollar(text: &[u8], w: Word, s: State) -> Answer
    ensures { Finish (L.ask L.dollar_option ∷ []) text.now w s result }
{
    if kinds::kind_of(w) != language::kinds::DOLLAR {
        return nothing(w, s);
    }
    let answer = taking::take(text, w, s, false, Bearing::Level)?;
    nothing(answer.next, answer.state)
}

// The period or END behind the states, and the end of the text.
pub fn ended(text: &[u8], w: Word, s: State) -> Answer
    ensures { Ending w → Finish more_stack text.now w s result }
{
    let answer = taking::take(text, w, s, false, Bearing::Level)?;
    dollar(text, answer.next, answer.state)
}
