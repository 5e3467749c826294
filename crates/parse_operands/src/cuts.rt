// HEAD, TAIL and EXT: the operator has been taken; its count must come.
ghost use Rattle.parse_step.specs.Course.{Seen};
ghost use Rattle.parse_step.specs.Gained.{Grows};
ghost use Rattle.parse_step.specs.Pays.{Spends};
ghost use Rattle.parse_operands.specs.Ended.{Cuts};

use image_records::nodes::Node;
use parse_array::{Work, bounds, places};
use parse_step::{Answer, State, adding, taking};
use text_words::Word;

// The count of a cut of kind `kind` whose word is at, and its record.
pub fn cut(s: State, kind: u8, operator: Word, text: &[u8], w: Word, work: &mut Work) -> Answer
    ensures { Cuts kind operator text.now w s work.old work.new result × (Seen text.now w → Grows s result) × Spends text.now 2 w s result }
{
    let kept = taking::keep_constant(text, w, s)?;
    let count = bounds::count(w.value);
    let beside = places::plain(operator.at);
    let operand = adding::last(kept.state.nodes);
    adding::add(
        work,
        kept.next,
        kept.state,
        Node::Cut(kind, operand, count),
        0,
        beside,
    )
}
