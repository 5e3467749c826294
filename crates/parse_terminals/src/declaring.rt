// A terminal declared: a name, its dimensions and its function.
ghost use Rattle.parse_facilities.specs.Lists.{Ones, terminals};

use crate::functions;
use parse_array::Work;
use parse_bounds::extents;
use parse_facilities::{Progress, adding, naming};
use parse_step::{State, Unread};
use parse_tables::facilities::Declared;
use text_words::Word;

// Reads a terminal and adds it to the facilities.
pub fn terminal(
    text: &[u8],
    w: Word,
    work: &mut Work,
    s: State,
    place: u16,
) -> Result<Progress, Unread>
    ensures { Ones terminals text.now w s place work.old work.new result }
{
    let named = naming::facility_name(text, w, s)?;
    let measured = extents::dimensions(text, named.next, named.state)?;
    let defined = functions::function(
        text,
        w,
        measured.extent.dimensions,
        measured.reached.next,
        work,
        measured.reached.state,
    )?;
    let x = Declared {
        kind: defined.kind,
        at: w.at,
        size: w.size,
        extent: measured.extent,
        expression: defined.expression,
        equals: defined.equals,
    };
    let reached = defined.reached;
    Ok(adding::declare(work, reached.next, reached.state, place, x))
}
