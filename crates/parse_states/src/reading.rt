// States, one after the other, to the end of the text.
ghost use Rattle.parse_states.specs.Bodies.{Stands};
ghost use Rattle.parse_states.specs.States.{All, One, more_stack, start_stack};

use crate::{bodies, closing, ends, heads};
use parse_array::Work;
use parse_step::{Answer, State, kinds};
use parse_tables::meaning::KnownNames;
use text_words::Word;

// One state; l is the length of the sequencing register, and 0 where there is none.
fn one(s: State, text: &[u8], w: Word, work: &mut Work, n: KnownNames, l: u16) -> Answer
    requires { Stands text.now n w s work.old }
    ensures { One l text.now n w s work.old work.new result }
{
    let begun = heads::head(text, w, work, s, l)?;
    let read = bodies::body(
        begun.reached.state,
        begun.named,
        w,
        text,
        begun.reached.next,
        work,
        n,
    )?;
    let actions = closing::run(s.actions, read.state.actions);
    closing::close(work, s.states, begun.head, actions);
    Ok(read)
}

// Behind a state: others, and the end of the text. Each is counted, so that there are not too many.
fn more(s: State, text: &[u8], w: Word, work: &mut Work, n: KnownNames, l: u16) -> Answer
    requires { Stands text.now n w s work.old }
    ensures { All more_stack l text.now n w s work.old work.new result }
{
    let mut next = w;
    let mut state = s;
    loop {
        let k = kinds::kind_of(next);
        if k == language::kinds::PERIOD || k == language::kinds::END {
            return ends::ended(text, next, state);
        }
        let another = one(state, text, next, work, n, l)?;
        next = another.next;
        state = another.state;
    }
}

// All states, to the end of the text.
pub fn states(s: State, text: &[u8], w: Word, work: &mut Work, n: KnownNames, l: u16) -> Answer
    requires { Stands text.now n w s work.old }
    ensures { All start_stack l text.now n w s work.old work.new result }
{
    let first = one(s, text, w, work, n, l)?;
    more(first.state, text, first.next, work, n, l)
}
