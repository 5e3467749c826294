// The states of a text, read once: a goto or a call waits with the length of its name, and is resolved when all labels are known.
ghost use Rattle.call_read.specs.Ready.{Behind, ReadsStates};

use parse_array::Work;
use parse_held::gotos;
use parse_states::reading;
use parse_step::{Answer, State};
use parse_tables::meaning::KnownNames;
use text_words::Word;

// All states, behind the sections before them; l is the length that their bare values take, and 0 where there is none.
pub fn states_of(text: &[u8], work: &mut Work, w: Word, s: State, l: u16) -> Answer
    requires { Behind text.now w s work.old }
    ensures { ReadsStates text.now l w s work.old work.new result }
{
    let names = KnownNames {
        facilities: s.known,
        operations: s.operations,
        waiting: true,
    };
    let read = reading::states(s, text, w, work, names, l)?;
    gotos::resolve(text, work, s.actions, read.state.actions, read.state.states);
    Ok(read)
}
