// One operation: what it begins with, its body, and its record.
ghost use Rattle.parse_sections.specs.Heads.{Body};
ghost use Rattle.parse_sections.specs.Lists.{One};

use crate::operations::heads;
use image_sections::runs::Run;
use parse_array::Work;
use parse_step::{Answer, Bearing, State, taking};
use parse_tables::meaning::KnownNames;
use parse_tables::operations;
use text_words::Word;

// The body and the bracket behind it.
fn body(s: State, text: &[u8], w: Word, work: &mut Work, n: KnownNames) -> Answer
    ensures { Body text.now n w s work.old work.new result }
{
    let list = parse_actions::list(s, false, text, w, work, n)?;
    taking::expect(
        text,
        list.next,
        list.state,
        language::kinds::CLOSE_BRACKET,
        Bearing::Closes,
    )
}

// Reads an operation. It knows the operations before it, and not itself.
pub fn operation(text: &[u8], w: Word, work: &mut Work, s: State) -> Answer
    ensures { One text.now w s work.old work.new result }
{
    let head = heads::head(text, w, s)?;
    let known = KnownNames {
        facilities: s.known,
        operations: s.operations,
        waiting: false,
    };
    let read = body(head.state, text, head.next, work, known)?;
    let run = Run {
        first: s.actions,
        count: read.state.actions.saturating_sub(s.actions),
    };
    operations::add_operation(work, s.operations, w.at, w.size, run);
    Ok(read)
}
