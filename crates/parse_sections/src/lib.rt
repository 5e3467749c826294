// The sections of a text up to CONTROL (the manual, 4, 6 and 7), read as the machine of the grammar reads them.
#![tactic(auto)]

ghost use Rattle.std.specs.Prelude.{◌<◌, ◌≡◌, length};
ghost use Rattle.parse_sections.specs.Sections.{Preamble, start_state};

use language::refusals::Refusal;
use parse_array::Work;
use parse_step::{Answer, State, kinds, taking};
use text_words::next;

mod lists;
mod operations;
mod sections;

// Nothing is counted or written yet.
fn start() -> State
    ensures { result ≡ start_state }
{
    State {
        facilities: 0,
        operations: 0,
        states: 0,
        counted: 0,
        nesting: 0,
        nodes: 0,
        actions: 0,
        known: 0,
    }
}

// Reads all before the states, whatever the array held.
pub fn preamble(text: &[u8], work: &mut Work) -> Answer
    requires { length text.now < 65536 }
    ensures { Preamble text.now work.new result }
{
    let w = next::next_word(text, 0);
    let s = start();
    let k = kinds::kind_of(w);
    if k == language::kinds::REGISTER {
        return sections::registers(text, w, work, s, 0);
    }
    if k == language::kinds::MEMORY {
        return sections::memories(text, w, work, s, 0);
    }
    if k == language::kinds::TERMINAL {
        return sections::terminals(text, w, work, s, 0);
    }
    taking::refuse(w, Refusal::NoContinuation)
}
