// The operations of a text: separated by commas, and ended by CONTROL.
ghost use Rattle.parse_sections.specs.Lists.{Lists, Mores, Stands};

use crate::operations::{ends, one};
use parse_array::Work;
use parse_step::{Answer, Bearing, Reached, State, kinds, taking};
use text_words::Word;

// Reads the operations and CONTROL behind them.
pub fn operations(text: &[u8], w: Word, work: &mut Work, s: State) -> Answer
    requires { Stands text.now w s work.old }
    ensures { Lists text.now w s work.old work.new result }
{
    let first = one::operation(text, w, work, s)?;
    more(text, first, work)
}

// Behind an operation: others, and the end. Each counts, so that there are not too many.
fn more(text: &[u8], first: Reached, work: &mut Work) -> Answer
    requires { Stands text.now first.next first.state work.old }
    ensures { Mores text.now first.next first.state work.old work.new result }
{
    let mut last = first;
    while kinds::kind_of(last.next) == language::kinds::COMMA {
        let comma = taking::take(text, last.next, last.state, false, Bearing::Level)?;
        last = one::operation(text, comma.next, work, comma.state)?;
    }
    ends::ended(text, last.next, last.state)
}
