// A whole text into the working array: all before the states, the length that their values take, and the states.
ghost use Rattle.std.specs.Prelude.{◌≤◌, length};
ghost use Rattle.call_read.specs.Outcomes.{Described};

use crate::described::{lengths, states};
use parse_array::Work;
use parse_held::Holding;
use parse_step::Unread;

// Reads the text whole, whatever the array held, and says how many records the array then holds.
pub fn described(text: &[u8], work: &mut Work) -> Result<Holding, Unread>
    requires { length text.now ≤ 32768 }
    ensures { Described text.now work.new result }
{
    let opened = parse_sections::preamble(text, work)?;
    let s = opened.state;
    let l = lengths::sequencing_length(work, s.known);
    let end = states::states_of(text, work, opened.next, s, l)?;
    Ok(Holding {
        facilities: s.known,
        operations: s.operations,
        nodes: end.state.nodes,
        actions: end.state.actions,
        states: end.state.states,
    })
}
